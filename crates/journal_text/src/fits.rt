//! Laws that say what the types of an entry's parts guarantee; each is the contract of a function
//! that does nothing.
ghost use Rattle.std.specs.Prelude.{All};
ghost use Rattle.journal_text.specs.code.Fits.{FitsEntry, FitsEvent, FitsMessage, FitsOp};
ghost use Rattle.journal_text.specs.rule.Served.{IsServedReply};

use message_text::{call_fits, lock_fits, message_fits};
use messages::{Entry, Event, NodeInput, ServerInput, SharedMessage};
use model::{Op, Reply};

fn reply_fits(reply: &Reply)
    ensures { IsServedReply reply.now }
{
    match *reply {
        Reply::Fd(fd) => {
            let _fd = fd;
        }
        Reply::Again(lock) | Reply::Blocked(lock) => lock_fits(lock),
        _ => (),
    }
}

fn op_fits(op: Op)
    ensures { FitsOp op }
{
    let _op = op;
}

fn event_fits(event: &Event)
    ensures { FitsEvent event.now }
{
    match event {
        Event::AtNode(_, NodeInput::Call { op, .. }) => op_fits(*op),
        Event::AtNode(_, NodeInput::Interrupt { .. } | NodeInput::Retry { .. }) => (),
        Event::AtServer(_, ServerInput::Resend) => (),
        Event::AtServer(_, ServerInput::Learn { incarnation, .. }) => {
            let _incarnation = *incarnation;
        }
        Event::Deliver(message) => message_fits(message.get()),
        Event::Member(_) => (),
    }
}

fn messages_fit(messages: &[SharedMessage])
    ensures { All FitsMessage messages.now }
{
    for message in messages {
        message_fits(message.get());
    }
}

fn entry_fits(entry: &Entry)
    ensures { FitsEntry entry.now }
{
    event_fits(entry.event());
    let _incarnation = entry.incarnation();
    if let Some(call) = entry.call() {
        call_fits(call);
    }
    if let Some((call, reply)) = entry.reply() {
        call_fits(call);
        reply_fits(&reply);
    }
    messages_fit(entry.sends());
}

/// Each entry is within its limits, but for the numbers of nodes, processes and files in its event.
pub(crate) fn entries_fit(entries: &[Entry])
    ensures { All FitsEntry entries.now }
{
    for entry in entries {
        entry_fits(entry);
    }
}
