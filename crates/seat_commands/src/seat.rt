//! Having the seat of an actor.
ghost use Rattle.std.specs.Prelude.{◌≡◌, IfOk, OnErr};
ghost use Rattle.model.specs.rule.Limits.{IsNumber};
ghost use Rattle.seats.specs.rule.Parts.{node_seat, server_seat};
ghost use Rattle.seat_commands.specs.rule.SeatTalks.{Holds, IsIn, SeatTalks, TalksFor, begin_of, node_begun, server_begun};

use crate::{ActorLine, Stopwatch, Timed, push_timed};
use messages::Actor;
use seat_text::talk::{Answerer, TalkEnd, talk, tell};
use seat_text::{Speaker, push_begin};
use seats::node_seat::NodeSeat;
use seats::seated::Seated;
use seats::server_seat::ServerSeat;
use std::alloc::{AllocError, Global};
use std::io::{Read, Write};
use std::time::Clock;

/// Has the seat of the actor: writes its first block, and then the block of each line that is read, each first to
/// the log and then out. Tells why that ended.
///
/// # Errors
/// `AllocError` where a request for memory was refused before the first block was written: nothing was read and written.
pub(crate) fn have_seat<C: Clock, R: Read, L: Write, W: Write>(
    clock: &C,
    alloc: Global,
    which: &ActorLine<'_>,
    reader: &mut R,
    log: &mut L,
    out: &mut W,
) -> Result<TalkEnd, AllocError>
    requires { IsIn which.now.shape which.now.actor }
    ensures talks { IfOk result (λ end. TalksFor which.now which.now.actor end (R.remaining reader.old) (R.remaining reader.new)
        (L.contents log.old) (L.contents log.new) (W.contents out.old) (W.contents out.new)) }
    ensures untouched { OnErr result ((reader.new ≡ reader.old) × (log.new ≡ log.old) × (out.new ≡ out.old)) }
{
    match which.actor {
        Actor::Node(node) => {
            let seat = node_seat(alloc, which, node)?;
            speak(clock, alloc, which, seat, reader, log, out)
        }
        Actor::Server(file) => {
            let seat = server_seat(alloc, which, file)?;
            speak(clock, alloc, which, seat, reader, log, out)
        }
    }
}

fn node_seat(alloc: Global, which: &ActorLine<'_>, node: u8) -> Result<NodeSeat, AllocError>
    requires { IsNumber which.now.shape.nodes node }
    ensures { IfOk result (λ seat. node_seat seat ≡ node_begun which.now.again which.now.left which.now.shape node) }
{
    if which.again {
        NodeSeat::again(alloc, which.shape, node, which.left)
    } else {
        NodeSeat::new(alloc, which.shape, node)
    }
}

fn server_seat(alloc: Global, which: &ActorLine<'_>, file: u16) -> Result<ServerSeat, AllocError>
    requires { IsNumber which.now.shape.files file }
    ensures { IfOk result (λ seat. server_seat seat ≡ server_begun which.now.again which.now.left which.now.shape file) }
{
    if which.again {
        ServerSeat::again(alloc, which.shape, file, which.left)
    } else {
        ServerSeat::new(alloc, which.shape, file)
    }
}

// Answers for the seat, with the readings of the clock where one is to be read.
fn speak<C: Clock, S: Seated + Drop, R: Read, L: Write, W: Write>(
    clock: &C,
    alloc: Global,
    which: &ActorLine<'_>,
    seat: S,
    reader: &mut R,
    log: &mut L,
    out: &mut W,
) -> Result<TalkEnd, AllocError>
    ensures talks { IfOk result (λ end. SeatTalks S.does which.now.clock (begin_of which.now) seat end (R.remaining reader.old) (R.remaining reader.new)
        (L.contents log.old) (L.contents log.new) (W.contents out.old) (W.contents out.new)) }
    ensures untouched { OnErr result ((reader.new ≡ reader.old) × (log.new ≡ log.old) × (out.new ≡ out.old)) }
{
    let mut begin = String::new(alloc);
    let mut who = Speaker::new(alloc, seat);
    if which.clock {
        let mut watch = Stopwatch::new(clock, 0);
        let began = watch.look();
        let mut first = String::new(alloc);
        push_begin(&mut first, &which.shape, which.actor, which.again)?;
        let ended = watch.look();
        push_timed(&mut begin, began, ended, first.as_str())?;
        let mut timed = Timed::new(alloc, watch, who);
        return Ok(hold(alloc, begin.as_str(), &mut timed, reader, log, out));
    }
    push_begin(&mut begin, &which.shape, which.actor, which.again)?;
    Ok(hold(alloc, begin.as_str(), &mut who, reader, log, out))
}

// Writes the text, first to the log and then out, and then what is said to each line that is read. Tells why the talk ended.
#[tactic(auto, using(crate::proofs::Talks::talks_behind, crate::proofs::Talks::breaks_off_at_once))]
fn hold<A: Answerer, R: Read, L: Write, W: Write>(
    alloc: Global,
    begin: &str,
    who: &mut A,
    reader: &mut R,
    log: &mut L,
    out: &mut W,
) -> TalkEnd
    ensures { Holds A.says begin.now result who.old who.new (R.remaining reader.old) (R.remaining reader.new)
        (L.contents log.old) (L.contents log.new) (W.contents out.old) (W.contents out.new) }
{
    match tell(log, out, begin.as_bytes()) {
        Ok(()) => talk(alloc, who, reader, log, out),
        Err(_) => TalkEnd::CannotWrite,
    }
}
