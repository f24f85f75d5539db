//! The seats of a token server that is declared failed and rebuilt, and the messages by which it gets its state again.
ghost use Rattle.std.specs.Prelude.{◌≡◌, IfSome};

use crate::books::{BookWithSeats, open, position, put_first, stamped};
use book::{Book, CommitError, Name, Seat, Stamp};
use message_text::push_message;
use messages::{Event, Refused, ServerInput, Shape, SharedMessage, Version};
use model::Policy;
use std::alloc::Global;
use std::marker::Brand;
use std::test::Fail;

fn resend() -> Event {
    Event::AtServer(1, ServerInput::Resend)
}

// The one message that the step sends, if its entry stands at the position and the message has the text.
fn sent_by(alloc: Global, stamp: &Stamp, position: u32, text: &str) -> Option<SharedMessage> {
    let sends = stamp.outcome().sends.as_slice();
    if stamp.position() != position || sends.len() != 1 {
        return None;
    }
    let message = sends.first()?;
    let mut written = String::new(alloc);
    push_message(&mut written, Version::Second, message.get()).ok()?;
    if written.as_str() != text {
        return None;
    }
    message.share().ok()
}

// Whether the step's entry stands at the position, and the step sends nothing and answers no call.
fn is_silent(stamp: &Stamp, position: u32) -> bool {
    let outcome = stamp.outcome();
    stamp.position() == position && outcome.sends.is_empty() && outcome.reply.is_none()
}

// Whether the server is declared failed by the first entry, and can't be declared so again.
fn fails_once<J: Name>(book: &mut Book<J>, alloc: Global) -> bool {
    let failed = position(book.fail_server(alloc, 1));
    failed == Some(1) && book.fail_server(alloc, 1).err() == Some(Refused::NotAlive)
}

// Whether the server, which was started, can't be started again.
fn is_started<J: Name>(book: &mut Book<J>, alloc: Global) -> bool {
    book.start_server(alloc, 1).err() == Some(Refused::NotDead)
}

// Whether of two steps that the server prepared before it failed the first is not taken then, from its seat, and the second not from the
// seat of the rebuilt server: the hello that this one sends. The new seat takes the old one's place.
fn begins_anew<J: Name>(
    book: &mut Book<J>,
    alloc: Global,
    seat: &mut Seat<J>,
) -> Option<SharedMessage> {
    let Ok(first) = seat.prepare(alloc, resend()) else {
        return None;
    };
    let Ok(second) = seat.prepare(alloc, resend()) else {
        return None;
    };
    let epoch = seat.incarnation();
    let failed = fails_once(book, alloc);
    let fenced = book.commit(alloc, seat, first, None).err();
    let Ok(stamp) = put_first(seat, book.start_server(alloc, 1)) else {
        return None;
    };
    if seat.incarnation() == epoch {
        return None;
    }
    let started = is_started(book, alloc);
    let stale = book.commit(alloc, seat, second, None).err();
    let is_right = failed
        && started
        && fenced == Some(CommitError::Fenced)
        && stale == Some(CommitError::Stale);
    let hello = sent_by(alloc, &stamp, 2, "hello 1 2 1.1");
    if is_right { hello } else { None }
}

// Whether the node answers the hello by its report, which the rebuilt server takes, and then has nothing to send again.
fn is_rebuilt<J: Name>(
    book: &mut Book<J>,
    alloc: Global,
    node: &mut Seat<J>,
    server: &mut Seat<J>,
    hello: SharedMessage,
) -> Option<bool> {
    let answered = stamped(book, alloc, node, Event::Deliver(hello), None)?;
    let report = sent_by(alloc, &answered, 3, "report 1 2 1.1 0")?;
    let taken = stamped(book, alloc, server, Event::Deliver(report), None)?;
    let resent = stamped(book, alloc, server, resend(), None)?;
    Some(is_silent(&taken, 4) && is_silent(&resent, 5))
}

// Whether the server fails, begins anew and is rebuilt.
fn fails_and_is_rebuilt<J: Name>(opened: &mut BookWithSeats<J>, alloc: Global) -> Option<bool> {
    let BookWithSeats { book, seats } = opened;
    let (node, rest) = seats.split_first_mut()?;
    let (server, _) = rest.split_first_mut()?;
    let hello = begins_anew(book, alloc, server)?;
    is_rebuilt(book, alloc, node, server, hello)
}

// Whether that is so in a book of one node and one file.
fn is_right<J: Name>(alloc: Global) -> Result<bool, Fail> {
    let mut opened = open::<J>(alloc, Shape::new(1, 1, Policy::Exact)?, None)?;
    Ok(fails_and_is_rebuilt(&mut opened, alloc) == Some(true))
}

#[test]
fn a_rebuilt_server_has_a_new_seat(rt: HostRuntime) -> Result<(), Fail> {
    let is_right = is_right::<Brand>(rt.alloc())?;
    assert!(rt; is_right);
    Ok(())
}
