//! Tests of the numbers of processes, files, nodes and commands.
ghost use Rattle.std.specs.Prelude.{◌≡◌};
ghost use Rattle.messages.specs.rule.Shapes.{begin_of};
ghost use Rattle.messages.specs.rule.Messages.{is_within};
ghost use Rattle.node_core.specs.rule.Calls.{is_pid};
ghost use Rattle.node_core.specs.rule.Commands.{is_node};
ghost use Rattle.node_core.specs.code.Plans.{calls_after, NumberFits};

use messages::{Actor, GREATEST_NUMBER};
use model::MOST_PROCESSES;

/// Whether the number is one that a process can have.
pub fn is_pid(pid: u16) -> bool
    ensures { result ≡ is_pid pid }
{
    is_within(MOST_PROCESSES, pid)
}

/// The number of calls that a node took, after one more call or after none.
pub fn calls_after(calls: u32, numbered: bool) -> u32
    requires { NumberFits calls numbered }
    ensures { result ≡ calls_after calls numbered }
{
    if numbered {
        return calls + 1;
    }
    calls
}

// The number of counts in an epoch.
const NUMBERS: u64 = GREATEST_NUMBER as u64 + 1;

/// The count after which the epoch of a command begins.
pub fn begin_of(number: u64) -> u64
    ensures { result ≡ begin_of number }
{
    number / NUMBERS * NUMBERS
}

/// Whether the number is from 1 to `most`.
pub fn is_within(most: u16, number: u16) -> bool
    ensures { result ≡ is_within most number }
{
    1 <= number && number <= most
}

/// Whether the actor is this node.
pub fn is_node(node: u8, actor: Actor) -> bool
    ensures { result ≡ is_node node actor }
{
    match actor {
        Actor::Node(n) => n == node,
        Actor::Server(_) => false,
    }
}
