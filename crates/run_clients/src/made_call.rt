//! The calls that entries make, and the processes that they name.
ghost use Rattle.std.specs.Prelude.{◌≡◌};
ghost use Rattle.messages.specs.rule.Entries.{NamesItsCall};
ghost use Rattle.cluster_core.specs.rule.Histories.{caller};
ghost use Rattle.run_clients.specs.code.Times.{made_by, name_of};

use messages::{Entry, Event, NodeInput};
use model::{CallId, Op};

/// A call, the number of its process, and what it asks for.
#[derive(Clone, Copy)]
pub(crate) struct MadeCall {
    pub(crate) id: CallId,
    pub(crate) pid: u16,
    pub(crate) op: Op,
}

/// A process as its calls name it, whether a node can have a process of that number or not.
#[derive(Clone, Copy, PartialEq, Eq, Hash)]
pub(crate) struct ProcessName {
    node: u8,
    incarnation: u16,
    pid: u16,
}

/// The call that the entry makes, if it makes one.
pub(crate) fn made_by(entry: &Entry) -> Option<MadeCall>
    ensures made { result ≡ made_by entry.now.event entry.now.call }
    ensures named { NamesItsCall entry.now.event entry.now.call }
{
    let id = entry.call();
    let Event::AtNode(_, NodeInput::Call { pid, op }) = entry.event() else {
        return None;
    };
    Some(MadeCall {
        id: id?,
        pid: *pid,
        op: *op,
    })
}

/// The process of a call with this name, by its number.
pub(crate) fn name_of(id: CallId, pid: u16) -> ProcessName
    ensures { result ≡ name_of (caller id pid) }
{
    ProcessName {
        node: id.node,
        incarnation: id.incarnation,
        pid,
    }
}
