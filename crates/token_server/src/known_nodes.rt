//! What the token server of a file knows of each node: the row with its incarnation, its token and its outstanding
//! command. It knows nothing of the queue of requests, of when a command is sent, of files of the operating system or
//! of printed text.

pub mod commands;
pub mod known_change;
pub mod known_node;
pub mod known_nodes;
pub mod new_row;
mod reports;
pub mod row_edit;
pub mod server_command;
pub mod token_holder;
