//! Commits, and why they are refused.
ghost use Rattle.std.specs.Prelude.{◌≡◌, IfSome};

use crate::books::{BookWithSeats, commits, open, position, put, stamped};
use book::{Book, CommitError, Confirms, Name, NewTrail, Receipt, Seat, Stamp};
use messages::{Event, NodeInput, Shape};
use model::{Op, Policy, ProcessCall, Reply};
use std::alloc::Global;
use std::marker::Brand;
use std::test::Fail;

// The book of a cluster of two nodes and one file, with its seats.
fn begins<J: Name>(alloc: Global, trail: Option<NewTrail>) -> Result<Box<BookWithSeats<J>>, Fail>
    requires { IfSome trail (λ trail. trail ≡ J.trail) }
{
    Ok(open(alloc, Shape::new(2, 1, Policy::Exact)?, trail)?)
}

fn spawn_of(node: u8, pid: u16) -> Event {
    let op = Op::Process(ProcessCall::Spawn);
    Event::AtNode(node, NodeInput::Call { pid, op })
}

// Whether the second of these steps has a receipt, which the first does not answer, and which the book confirms.
fn is_confirmed<J: Name>(book: &Book<J>, first: &Stamp, second: &Stamp) -> bool {
    if second.seen() != 1 || Receipt::of(first, second).is_some() {
        return false;
    }
    match Receipt::of(second, second) {
        Some(receipt) => {
            receipt.seen() == 1
                && receipt.call_at() == 2
                && receipt.reply_at() == 2
                && book.confirm(&receipt)
        }
        None => false,
    }
}

// Whether the entry at the position is the step, which is the first call of the node's incarnation, and is answered at once, done.
fn is_done(stamp: &Stamp, position: u32, node: u8, incarnation: u16) -> bool {
    let Some((call, reply)) = stamp.outcome().reply else {
        return false;
    };
    stamp.position() == position
        && stamp.outcome().call == Some(call)
        && (call.node, call.incarnation, call.number) == (node, incarnation, 1)
        && reply == Reply::Done
}

// Whether of two steps that were prepared from one seat the first is taken, behind a step of another node that was committed meanwhile and
// with a receipt of its own, and the second then is not.
fn takes_one_of_two<J: Name>(
    book: &mut Book<J>,
    alloc: Global,
    one: &mut Seat<J>,
    two: &mut Seat<J>,
) -> Option<bool> {
    let Ok(first) = one.prepare(alloc, spawn_of(1, 1)) else {
        return None;
    };
    let Ok(second) = one.prepare(alloc, spawn_of(1, 2)) else {
        return None;
    };
    let other = two.prepare(alloc, spawn_of(2, 1)).ok()?;
    let before = book.commit(alloc, two, other, None).ok()?;
    let Ok(stamp) = book.commit(alloc, one, first, Some(&before.mark())) else {
        return None;
    };
    let stale = book.commit(alloc, one, second, None).err();
    let are_done = is_done(&before, 1, 2, 1) && is_done(&stamp, 2, 1, 1);
    Some(are_done && is_confirmed(book, &before, &stamp) && stale == Some(CommitError::Stale))
}

// Whether a step that was prepared before its node was declared failed is refused, and the book and the seat are as they were.
fn is_fenced_as_it_was<J: Name>(
    book: &mut Book<J>,
    alloc: Global,
    one: &mut Seat<J>,
) -> Option<bool> {
    let prepared = one.prepare(alloc, spawn_of(1, 2)).ok()?;
    let declared = position(book.declare(alloc, 1));
    let refused = book.commit(alloc, one, prepared, None).err();
    let is_as_it_was = book.len() == 3 && one.commits() == 1;
    Some(declared == Some(3) && refused == Some(CommitError::Fenced) && is_as_it_was)
}

// Whether the node that begins again has a new seat, whose first step is taken, and which commits no step of another node.
fn begins_on_a_new_seat<J: Name>(
    book: &mut Book<J>,
    alloc: Global,
    one: &mut Seat<J>,
    two: &mut Seat<J>,
) -> Option<bool> {
    put(one, book.restart(alloc, 1))?;
    let restarted = book.len();
    let begun = stamped(book, alloc, one, spawn_of(1, 1), None)?;
    let strange = two.prepare(alloc, spawn_of(2, 2)).ok()?;
    if one.actor() == two.actor() {
        return None;
    }
    let refused = book.commit(alloc, one, strange, None).err();
    Some(restarted == 4 && is_done(&begun, 5, 1, 2) && refused == Some(CommitError::Stale))
}

// Whether a book refuses a step of a seat of another book that has taken one of the same node.
fn refuses_the_other_book<J: Name>(
    book: &mut Book<J>,
    alloc: Global,
    other: &mut BookWithSeats<J>,
) -> Option<bool> {
    let BookWithSeats { book: there, seats } = other;
    let strange = seats.get_mut(1)?;
    let began = commits(there, alloc, strange, spawn_of(2, 5)).is_some();
    let next = strange.prepare(alloc, spawn_of(2, 6)).ok()?;
    let refused = book.commit(alloc, strange, next, None).err();
    Some(began && refused == Some(CommitError::Stale))
}

// Whether steps that were prepared side by side, of two nodes of which one fails and begins again, are taken and refused as their seats say.
fn takes_and_refuses<J: Name>(
    opened: &mut BookWithSeats<J>,
    alloc: Global,
    other: &mut BookWithSeats<J>,
) -> Option<bool> {
    let BookWithSeats { book, seats } = opened;
    let (one, rest) = seats.split_first_mut()?;
    let (two, _) = rest.split_first_mut()?;
    let is_right = takes_one_of_two(book, alloc, one, two)?
        && is_fenced_as_it_was(book, alloc, one)?
        && begins_on_a_new_seat(book, alloc, one, two)?;
    Some(is_right && refuses_the_other_book(book, alloc, other)?)
}

// Whether that is so in a book of two nodes and one file, beside another one.
fn takes_prepared_steps<J: Name>(alloc: Global, trail: Option<NewTrail>) -> Result<bool, Fail>
    requires { IfSome trail (λ trail. trail ≡ J.trail) }
{
    let mut opened = begins::<J>(alloc, trail)?;
    let mut other = begins::<J>(alloc, None)?;
    Ok(takes_and_refuses(&mut opened, alloc, &mut other) == Some(true))
}

#[test]
fn a_seat_holds_prepared_steps(rt: HostRuntime) -> Result<(), Fail> {
    let is_right = takes_prepared_steps::<Brand>(rt.alloc(), None)?;
    assert!(rt; is_right);
    Ok(())
}

// Whether a book with a trail takes and refuses the same.
fn takes_on_trail<J: Name>(alloc: Global, trail: NewTrail) -> Result<bool, Fail>
    requires { trail ≡ J.trail }
{
    takes_prepared_steps::<J>(alloc, Some(trail))
}

#[test]
fn a_book_with_a_trail_takes_the_same(rt: HostRuntime) -> Result<(), Fail> {
    let is_right = takes_on_trail::<Brand>(rt.alloc(), NewTrail::new())?;
    assert!(rt; is_right);
    Ok(())
}
