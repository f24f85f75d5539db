//! The commands that a token server sends as it serves.
ghost use Rattle.std.specs.Prelude.{◌≡◌, option_copied};
ghost use Rattle.token_server.specs.code.Edits.{told_to};

use crate::known_nodes::commands::Commands;
use crate::known_nodes::server_command::ServerCommand;

/// A command, the node that it goes to, and the commands to that node with it.
#[derive(Clone, Copy)]
pub struct SentCommand {
    pub node: u8,
    pub commands: Commands,
    pub command: ServerCommand,
}

/// The command to the node among these, if there is one.
pub fn told_to(told: &[SentCommand], node: u8) -> Option<&SentCommand>
    ensures { option_copied result ≡ told_to told.now node }
{
    told.iter().find(|told| told.node == node)
}
