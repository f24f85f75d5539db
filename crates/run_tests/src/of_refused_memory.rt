//! The steps of a cluster where a request for memory is refused: of a world, and of a book with its seats, which take the entries of
//! one journal.
ghost use Rattle.std.specs.Prelude.{◌≡◌};

use crate::books::{BookWithSeats, commits, open, position, put, put_first};
use book::{Book, Name, NewTrail, Seat};
use cluster_core::{World, comes_next};
use journal_text::parse::parse;
use messages::{Actor, Entry, Event, MemberEvent, Shape};
use std::alloc::{AllocError, Global};
use std::marker::Brand;
use std::test::Fail;

// The run of `tests/restarted-while-awaited.lock`, which ends with entry 37. Then node 2 has every call that is left, and waits for
// a lock of node 1, which is declared failed.
const RUN: &str = "journal 2 nodes 2 files 1 policy exact
entry 1 call 1.1.1 1 spawn
reply 1.1.1 done
entry 2 call 1.1.2 1 open 1 rw
reply 1.1.2 fd 0
entry 3 call 1.1.3 1 set 0 proc write 0 100
send request 1 1.1.3 now write 0 99 0 99
entry 4 call 2.1.1 1 spawn
reply 2.1.1 done
entry 5 call 2.1.2 1 open 1 rw
reply 2.1.2 fd 0
entry 6 deliver request 1 1.1.3 now write 0 99 0 99
send grant 1 1 1 1.1.3 write 0 99
entry 7 deliver grant 1 1 1 1.1.3 write 0 99
reply 1.1.3 done
send taken 1 1 1 1.1.3
entry 8 deliver taken 1 1 1 1.1.3
entry 9 fail-server 1.1
entry 10 start-server 1.2
send hello 1 2 1.1
send hello 1 2 2.1
entry 11 call 2.1.3 1 set 0 proc write 50 10
send request 1 2.1.3 now write 50 59 50 59
entry 12 deliver hello 1 2 2.1
send report 1 2 2.1 0
entry 13 deliver report 1 2 2.1 0
entry 14 deliver request 1 2.1.3 now write 50 59 50 59
entry 15 declare 1.1
entry 16 restart 1.2
entry 17 deliver hello 1 2 1.1
entry 18 call 1.2.1 1 spawn
reply 1.2.1 done
entry 19 call 1.2.2 1 open 1 rw
reply 1.2.2 fd 0
entry 20 call 1.2.3 1 set 0 proc write 55 10
send request 1 1.2.3 now write 55 64 55 64
entry 21 deliver request 1 1.2.3 now write 55 64 55 64
send grant 1 2 1 2.1.3 write 50 59
entry 22 deliver grant 1 2 1 2.1.3 write 50 59
reply 2.1.3 done
send taken 1 2 1 2.1.3
entry 23 deliver taken 1 2 1 2.1.3
send revoke 1 2 2 2.1 1.2.3 write 55 64 55 64
entry 24 deliver revoke 1 2 2 2.1 1.2.3 write 55 64 55 64
send conflict 1 2 2 2.1 1.2.3 write 50 59 p1@2.1
entry 25 deliver conflict 1 2 2 2.1 1.2.3 write 50 59 p1@2.1
send deny 1 1.2.3 2.1 2 2 write 50 59 p1@2.1
entry 26 deliver deny 1 1.2.3 2.1 2 2 write 50 59 p1@2.1
reply 1.2.3 again write 50 59 p1@2.1
entry 27 deliver request 1 1.2.3 now write 55 64 55 64
send revoke 1 2 3 2.1 1.2.3 write 55 64 55 64
entry 28 call 2.1.4 1 unlock 0 proc 0 0
reply 2.1.4 done
send freed 1 2.1
entry 29 call 1.2.4 1 set 0 proc write 55 10
send request 1 1.2.4 now write 55 64 55 64
entry 30 deliver revoke 1 2 3 2.1 1.2.3 write 55 64 55 64
send released 1 2 3 2.1 1.2.3 55 64
entry 31 deliver freed 1 2.1
entry 32 deliver request 1 1.2.4 now write 55 64 55 64
entry 33 deliver released 1 2 3 2.1 1.2.3 55 64
send grant 1 2 1 1.2.3 write 55 64
entry 34 deliver grant 1 2 1 1.2.3 write 55 64
send taken 1 2 1 1.2.3
entry 35 deliver taken 1 2 1 1.2.3
send grant 1 2 2 1.2.4 write 55 64
entry 36 deliver grant 1 2 2 1.2.4 write 55 64
reply 1.2.4 done
send taken 1 2 2 1.2.4
entry 37 deliver taken 1 2 2 1.2.4
entry 38 call 2.1.5 1 dup 0
reply 2.1.5 fd 1
entry 39 call 2.1.6 1 fork 2
reply 2.1.6 done
entry 40 call 2.1.7 1 query 0 proc write 50 5
reply 2.1.7 free
entry 41 call 2.1.8 2 close 1
reply 2.1.8 done
entry 42 call 2.1.9 2 wait 0 proc write 55 10
send request 1 2.1.9 wait write 55 64 55 64
entry 43 deliver request 1 2.1.9 wait write 55 64 55 64
send revoke 1 2 3 1.2 2.1.9 write 55 64 55 64
entry 44 deliver revoke 1 2 3 1.2 2.1.9 write 55 64 55 64
send conflict 1 2 3 1.2 2.1.9 write 55 64 p1@1.2
entry 45 deliver conflict 1 2 3 1.2 2.1.9 write 55 64 p1@1.2
entry 46 retry 2.1 2
send request 1 2.1.9 wait write 55 64 55 64
entry 47 interrupt 2.1 2
reply 2.1.9 interrupted
entry 48 call 2.1.10 2 exit
reply 2.1.10 done
entry 49 resend 1
send revoke 1 2 4 1.2 2.1.9 write 55 64 55 64
entry 50 declare 1.2
entry 51 learn 1 1.2
send grant 1 2 4 2.1.9 write 55 64
entry 52 deliver grant 1 2 4 2.1.9 write 55 64
send taken 1 2 4 2.1.9
entry 53 deliver taken 1 2 4 2.1.9
end 53
";

// The shape and the entries of the journal, which is read again where a request for memory is refused.
fn read(alloc: Global, text: &str) -> Result<(Shape, Vec<Entry>), Fail> {
    match parse(alloc, text) {
        Ok(journal) => Ok(journal),
        Err(_) => Ok(parse(alloc, text)?),
    }
}

/// What takes the entries of a journal, one after the other.
trait Taker {
    /// Whether the entry's event comes to the entry. No answer is a refused request for memory, where nothing has changed.
    fn takes(&mut self, alloc: Global, entry: &Entry) -> Option<bool>;
}

// Whether the entry is taken, which is asked again where a request is refused.
fn takes_again<T: Taker>(alloc: Global, taker: &mut T, entry: &Entry) -> bool {
    match taker.takes(alloc, entry) {
        Some(is_taken) => is_taken,
        None => taker.takes(alloc, entry) == Some(true),
    }
}

// Whether all are.
fn takes_all<T: Taker>(alloc: Global, taker: &mut T, entries: &[Entry]) -> bool {
    for entry in entries {
        if !takes_again(alloc, taker, entry) {
            return false;
        }
    }
    true
}

impl Taker for World {
    fn takes(&mut self, alloc: Global, entry: &Entry) -> Option<bool> {
        comes_next(self, alloc, entry).ok()
    }
}

// The world before any event, in a box. (What a test keeps in a box is dropped in fewer steps.)
fn begins(alloc: Global, shape: Shape) -> Result<Box<World>, AllocError> {
    Ok(Box::new(alloc, World::new(alloc, shape)?)?)
}

fn begins_again(alloc: Global, shape: Shape) -> Result<Box<World>, AllocError> {
    match begins(alloc, shape) {
        Ok(world) => Ok(world),
        Err(_) => begins(alloc, shape),
    }
}

// Whether a world of that shape takes the entries.
fn world_takes(alloc: Global, shape: Shape, entries: &[Entry]) -> Result<bool, AllocError> {
    let mut world = begins_again(alloc, shape)?;
    Ok(takes_all(alloc, &mut *world, entries))
}

// The actor that takes the event, if one does, where there is one file.
fn actor_of(event: &Event) -> Actor {
    match event {
        Event::AtNode(node, _) => Actor::Node(*node),
        Event::Deliver(message) => message.get().addressee(),
        _ => Actor::Server(1),
    }
}

// The actor's seat.
fn seat_of<J: Name>(seats: &mut Vec<Seat<J>>, actor: Actor) -> Option<&mut Seat<J>> {
    match actor {
        Actor::Node(node) => seats.get_mut(usize::from(node).saturating_sub(1)),
        Actor::Server(_) => seats.last_mut(),
    }
}

// The server begins again, with another seat. Where the entry stands, from 1; no answer is a refusal, here and below.
fn starts<J: Name>(
    alloc: Global,
    book: &mut Book<J>,
    seats: &mut Vec<Seat<J>>,
    file: u16,
) -> Option<u32> {
    position(put_first(seats.last_mut()?, book.start_server(alloc, file)))
}

// The first node begins again, with another seat.
fn restarts<J: Name>(
    alloc: Global,
    book: &mut Book<J>,
    seats: &mut Vec<Seat<J>>,
    node: u8,
) -> Option<u32> {
    put(seats.first_mut()?, book.restart(alloc, node))?;
    Some(book.len())
}

// Where the entry of the event stands.
fn taken<J: Name>(
    alloc: Global,
    book: &mut Book<J>,
    seats: &mut Vec<Seat<J>>,
    event: &Event,
) -> Option<u32> {
    match event {
        Event::Member(MemberEvent::Declare { node }) => position(book.declare(alloc, *node)),
        Event::Member(MemberEvent::Restart { node }) => restarts(alloc, book, seats, *node),
        Event::Member(MemberEvent::FailServer { file }) => position(book.fail_server(alloc, *file)),
        Event::Member(MemberEvent::StartServer { file }) => starts(alloc, book, seats, *file),
        _ => {
            let seat = seat_of(seats, actor_of(event))?;
            commits(book, alloc, seat, event.copy().ok()?)
        }
    }
}

// Whether the book's last entry stands there, and is that.
fn ends_with<J: Name>(book: &Book<J>, position: u32, entry: &Entry) -> bool {
    match book.entries().last() {
        Some(last) => book.len() == position && last.same(entry),
        None => false,
    }
}

impl<J: Name> Taker for BookWithSeats<J> {
    fn takes(&mut self, alloc: Global, entry: &Entry) -> Option<bool> {
        let BookWithSeats { book, seats } = self;
        let before = book.len();
        match taken(alloc, book, seats, entry.event()) {
            Some(position) => Some(ends_with(book, position, entry)),
            None if book.len() == before => None,
            None => Some(false),
        }
    }
}

// Whether a book of that shape takes the entries. (One that is made again has no trail.)
fn book_takes<J: Name>(
    alloc: Global,
    shape: Shape,
    trail: NewTrail,
    entries: &[Entry],
) -> Result<bool, AllocError>
    requires { trail ≡ J.trail }
{
    let mut opened = match open::<J>(alloc, shape, Some(trail)) {
        Ok(opened) => opened,
        Err(_) => open::<J>(alloc, shape, None)?,
    };
    Ok(takes_all(alloc, &mut *opened, entries))
}

// Where one request for memory is refused, the world stays as it is: the same step then gives what it would have given, and so do
// those after it. `scripts/refused-memory` refuses the requests of the tests named so, one after the other.
#[test]
fn world_keeps_what_it_had(rt: HostRuntime) -> Result<(), Fail> {
    let (shape, entries) = read(rt.alloc(), RUN)?;
    let is_taken = world_takes(rt.alloc(), shape, &entries)?;
    assert!(rt; is_taken);
    Ok(())
}

// The same of a book and its seats.
#[test]
fn book_keeps_what_it_had(rt: HostRuntime) -> Result<(), Fail> {
    let (shape, entries) = read(rt.alloc(), RUN)?;
    let is_taken = book_takes::<Brand>(rt.alloc(), shape, NewTrail::new(), &entries)?;
    assert!(rt; is_taken && entries.len() == 53);
    Ok(())
}
