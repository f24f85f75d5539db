//! A slot of a history: what stands at an entry of a run.
ghost use Rattle.std.specs.Prelude.{◌≡◌, ◌<◌};
ghost use Rattle.cluster_core.specs.rule.World.{journal_limit};
ghost use Rattle.cluster_core.specs.code.Calls.{called_by, gone_at};
ghost use Rattle.placement.specs.code.Indexes.{answered_so, stands};

use cluster_core::Item;
use messages::{Entry, Event, MemberEvent, NodeInput};
use model::Op;

/// What stands at an entry: nothing; the failure of a node, which the entry declares; or a call, which one entry makes
/// and another answers, each named by its index, from 0.
#[derive(Clone, Copy)]
pub enum Slot {
    Empty,
    Declared,
    Answered { call: u32, reply: u32 },
}

impl Slot {
    /// The item that stands at the entry with that index, which has this slot, if one does. Its position is one more.
    pub fn item(&self, entries: &[Entry], index: usize) -> Option<Item>
        requires { index < journal_limit }
        ensures { result ≡ stands entries.now index self.now }
    {
        let position = index as u32 + 1;
        match *self {
            Slot::Empty => None,
            Slot::Declared => gone_at(position, entries.get(index)?),
            Slot::Answered { call, reply } => {
                let made = made_by(entries.get(call as usize)?)?;
                answered_at(position, made, entries.get(reply as usize)?)
            }
        }
    }
}

// The failure of a node that the entry, at that position, declares, if it declares one.
pub(crate) fn gone_at(position: u32, entry: &Entry) -> Option<Item>
    ensures { result ≡ gone_at position entry.now.incarnation entry.now.event }
{
    let Event::Member(MemberEvent::Declare { node }) = entry.event() else {
        return None;
    };
    Some(Item::Gone {
        position,
        node: *node,
        incarnation: entry.incarnation(),
    })
}

// The process and the operation of the call that the entry makes, if it makes one.
fn made_by(entry: &Entry) -> Option<(u16, Op)>
    ensures { result ≡ called_by entry.now.event None }
{
    let Event::AtNode(_, NodeInput::Call { pid, op }) = entry.event() else {
        return None;
    };
    Some((*pid, *op))
}

// The item at that position of the call that the entry answers, with this process and operation.
fn answered_at(position: u32, made: (u16, Op), entry: &Entry) -> Option<Item>
    ensures { result ≡ answered_so position (Some made) entry.now.reply }
{
    let (id, reply) = entry.reply()?;
    let (pid, op) = made;
    Some(Item::Answered {
        position,
        id,
        pid,
        op,
        reply,
    })
}
