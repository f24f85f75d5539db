//! Books of tests, with the seats that take their steps.
ghost use Rattle.std.specs.Prelude.{◌≡◌, IfSome};

use book::{Book, Mark, Name, NewTrail, Seat, Stamp};
use messages::{Event, Shape};
use std::alloc::{AllocError, Global};

/// A book and the seats of its actors.
#[derive(Drop)]
pub struct BookWithSeats<J: Name> {
    pub book: Book<J>,
    pub seats: Vec<Seat<J>>,
}

/// A book of the shape, with its seats. (In a box, since that is dropped in fewer steps, each of which the check proves.)
pub fn open<J: Name>(
    alloc: Global,
    shape: Shape,
    trail: Option<NewTrail>,
) -> Result<Box<BookWithSeats<J>>, AllocError>
    requires { IfSome trail (λ trail. trail ≡ J.trail) }
{
    let (book, seats) = Book::new(alloc, shape, trail)?;
    Ok(Box::new(alloc, BookWithSeats { book, seats })?)
}

/// Where a step's entry stands, from 1, if it was taken.
pub fn position<E: Drop>(made: Result<Stamp, E>) -> Option<u32> {
    Some(made.ok()?.position())
}

/// Prepares the event's step and commits it at once: where its entry stands, if it was taken.
pub fn commits<J: Name>(
    book: &mut Book<J>,
    alloc: Global,
    seat: &mut Seat<J>,
    event: Event,
) -> Option<u32> {
    let prepared = seat.prepare(alloc, event).ok()?;
    position(book.commit(alloc, seat, prepared, None))
}

/// Prepares the event's step and commits it at once, where the actor has seen the mark, if there is one: the stamp, if the step was taken. (In a
/// box, since that is dropped in fewer steps.)
pub fn stamped<J: Name>(
    book: &mut Book<J>,
    alloc: Global,
    seat: &mut Seat<J>,
    event: Event,
    seen: Option<&Mark>,
) -> Option<Box<Stamp>> {
    let prepared = seat.prepare(alloc, event).ok()?;
    let stamp = book.commit(alloc, seat, prepared, seen).ok()?;
    Box::new(alloc, stamp).ok()
}

/// Puts what was made in the place of what was there. (Of any type, since a seat is dropped in many steps.)
pub fn put<T: Drop, E: Drop>(place: &mut T, made: Result<T, E>) -> Option<()> {
    *place = made.ok()?;
    Some(())
}

/// Puts the first of the two that were made in the place of what was there: the second.
pub fn put_first<T: Drop, U: Drop, E>(place: &mut T, made: Result<(T, U), E>) -> Result<U, E> {
    let (first, second) = made?;
    *place = first;
    Ok(second)
}
