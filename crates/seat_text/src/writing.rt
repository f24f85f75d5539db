//! A seat that answers lines, and the blocks that it writes.
//!
//! Each function here that can fail errs with `AllocError`, where a request for memory was refused.
ghost use Rattle.std.specs.Prelude.{◌≡◌, ◌++◌, List, ℕ, OnOk, Result, string_bytes, Ok, find};
ghost use Rattle.messages.specs.declared.refusal.Refused.{Refused as Refusal};
ghost use Rattle.seats.specs.declared.seat_step.SeatStep.{SeatStep};
ghost use Rattle.seat_text.specs.rule.Blocks.{block, no_entries, actor_text, after_step, again_text, bad_line, cluster_text, count_after, first_block, first_front, refused_line, step_text, tag_line, tagged_line, tags_after, to_lines, whose_text, without};
ghost use Rattle.seat_text.specs.rule.SeatLines.{order_of, tag_of};
ghost use Rattle.seat_text.specs.rule.Speaking.{Says};
ghost use Rattle.messages.specs.rule.Messages.{same_call};
ghost use Rattle.messages.specs.declared.version.Version.TheVariants.{Second};
ghost use Rattle.journal_text.specs.rule.Journals.{reply_line};

use crate::seat_line::{SeatLine, bad_column, seat_line_of};
use crate::talk::Answerer;
use journal_text::journal::push_end;
use journal_text::writing::push_event;
use lockscript::push_reply;
use message_text::{push_call, push_message};
use messages::{Actor, Event, NodeInput, Refused, Shape, SharedMessage, Version};
use model::{CallId, Policy, Reply};
use seats::seat_step::SeatStep;
use seats::seated::Seated;
use std::alloc::{AllocError, Global};
use std::fmt::Write;
use std::marker::Model;
use std::str;
use texts::words::Named;

/// Who has a seat, and answers lines with blocks.
#[derive(Drop)]
pub struct Speaker<S> {
    alloc: Global,
    seat: S,
    ledger: Ledger,
}

impl<S> Model for Speaker<S> {
    ghost use Rattle.seat_text.specs.rule.Speaking.{Speaking};

    ghost Value = { Speaking S };

    ghost view = { λ s. record { seat = s.seat; ledger = s.ledger } };
}

impl<S> Speaker<S> {
    /// Who has the seat, and has written nothing.
    pub fn new(alloc: Global, seat: S) -> Speaker<S>
        ensures { result ≡ record { seat = seat; ledger = no_entries } }
    {
        Speaker {
            alloc,
            seat,
            ledger: Ledger {
                count: 0,
                tags: Vec::new(alloc),
            },
        }
    }
}

impl<S: Seated> Answerer for Speaker<S> {
    ghost says = { Says S.does };

    fn answer(&mut self, line: &[u8], out: &mut String) -> Result<(), AllocError> {
        let Ok(text) = str::from_utf8(line) else {
            return push_bad(out, 1);
        };
        match seat_line_of(text) {
            Some(told) => obey(self, told, out),
            None => push_bad(out, bad_column(text)),
        }
    }

    fn answer_long(&mut self, out: &mut String) -> Result<(), AllocError> {
        push_bad(out, 67_108_865)
    }
}

// Does what the line tells.
fn obey<S: Seated>(
    who: &mut Speaker<S>,
    told: SeatLine<'_>,
    out: &mut String,
) -> Result<(), AllocError>
    ensures { OnOk result ((said : List ℕ) × (done : Result (List SeatStep) Refusal) × S.does who.old.seat (order_of told.entry) done who.new.seat
        × (block (tag_of told.entry) who.old.ledger done ≡ (who.new.ledger, said)) × (string_bytes out.new ≡ string_bytes out.old ++ said)) }
{
    let tag = told.tag();
    let order = told.order(who.alloc)?;
    match who.seat.take(who.alloc, order) {
        Ok(steps) => push_block(out, tag, &mut who.ledger, steps.as_slice()),
        Err(Refused::NoMemory) => Err(AllocError),
        Err(refusal) => push_refused(out, refusal.number()),
    }
}

/// The last call of a process, which had this tag.
#[derive(Clone, Copy, Debug, PartialEq, Eq)]
pub struct TaggedCall {
    pub pid: u16,
    pub call: CallId,
    pub tag: u64,
}

// The number of entries so far, and the tagged calls.
#[derive(Drop)]
struct Ledger {
    count: usize,
    tags: Vec<TaggedCall>,
}

impl Model for Ledger {
    ghost use Rattle.seat_text.specs.rule.Blocks.{Ledger as Fields};

    ghost Value = { Fields };

    ghost view = { λ l. record { count = l.count; tags = l.tags.items } };
}

impl Ledger {
    // Notes a step of a line with this tag.
    fn note(&mut self, tag: Option<u64>, step: &SeatStep) -> Result<(), AllocError>
        ensures { OnOk result (self.new ≡ after_step tag self.old step.now) }
    {
        self.count = count_after(self.count, &step.event);
        note_call(&mut self.tags, tag, &step.event, step.outcome.call)
    }
}

// The number of entries after a step at the event.
fn count_after(count: usize, event: &Event) -> usize
    ensures { result ≡ count_after count event.now }
{
    match event {
        Event::Member(_) => count,
        _ => count.saturating_add(1),
    }
}

// Notes the call that the event names, of a line with this tag.
fn note_call(
    tags: &mut Vec<TaggedCall>,
    tag: Option<u64>,
    event: &Event,
    call: Option<CallId>,
) -> Result<(), AllocError>
    ensures { OnOk result (tags.new.items ≡ tags_after tag tags.old.items event.now call) }
{
    let Event::AtNode(_, NodeInput::Call { pid, .. }) = event else {
        return Ok(());
    };
    let pid = *pid;
    forget(tags, pid);
    match (tag, call) {
        (Some(tag), Some(call)) => Ok(tags.push(TaggedCall { pid, call, tag })?),
        _ => Ok(()),
    }
}

// Forgets the call of the process.
fn forget(tags: &mut Vec<TaggedCall>, pid: u16)
    ensures { tags.new.items ≡ without pid tags.old.items }
{
    tags.retain(|tagged| tagged.pid != pid);
}

// Adds who a message is for.
fn push_actor(out: &mut String, actor: Actor) -> Result<(), AllocError>
    ensures { OnOk result (string_bytes out.new ≡ string_bytes out.old ++ actor_text actor) }
{
    match actor {
        Actor::Node(node) => write!(out, "node {node}"),
        Actor::Server(file) => write!(out, "server {file}"),
    }
}

// Adds the lines of the messages that are sent.
fn push_sends(out: &mut String, messages: &[SharedMessage]) -> Result<(), AllocError>
    ensures { OnOk result (string_bytes out.new ≡ string_bytes out.old ++ to_lines messages.now) }
{
    for message in messages {
        out.push_str("to ")?;
        push_actor(out, message.get().addressee())?;
        out.push_str(" ")?;
        push_message(out, Version::Second, message.get())?;
        out.push_str("\n")?;
    }
    Ok(())
}

// Adds the line of the answer, if there is one.
fn push_answer(out: &mut String, answer: Option<(CallId, Reply)>) -> Result<(), AllocError>
    ensures { OnOk result (string_bytes out.new ≡ string_bytes out.old ++ reply_line answer) }
{
    let Some((call, reply)) = answer else {
        return Ok(());
    };
    out.push_str("reply ")?;
    push_call(out, &call)?;
    out.push_str(" ")?;
    push_reply(out, &reply)?;
    out.push_str("\n")
}

// Whether both are names of the same call.
fn same_call(one: CallId, other: CallId) -> bool
    ensures { result ≡ same_call one other }
{
    one.node == other.node && one.incarnation == other.incarnation && one.number == other.number
}

// The tagged call of this name.
fn find(tags: &[TaggedCall], call: CallId) -> Option<TaggedCall>
    ensures { result ≡ find (λ t. same_call t.call call) tags.now }
{
    tags.iter()
        .find(|tagged| same_call(tagged.call, call))
        .copied()
}

// Adds the line of the tag of a call, if there is one.
fn push_tagged(out: &mut String, tagged: Option<TaggedCall>) -> Result<(), AllocError>
    ensures { OnOk result (string_bytes out.new ≡ string_bytes out.old ++ tagged_line tagged) }
{
    match tagged {
        Some(TaggedCall { tag, .. }) => writeln!(out, "tag {tag}"),
        None => Ok(()),
    }
}

// Adds the line of the tag of the call that is answered, if it has one.
fn push_tag(
    out: &mut String,
    tags: &[TaggedCall],
    answer: Option<(CallId, Reply)>,
) -> Result<(), AllocError>
    ensures { OnOk result (string_bytes out.new ≡ string_bytes out.old ++ tag_line tags.now answer) }
{
    let Some((call, _)) = answer else {
        return Ok(());
    };
    push_tagged(out, find(tags, call))
}

// Adds what stands before the event in the first line of a step.
fn push_front(out: &mut String, count: usize, event: &Event) -> Result<(), AllocError>
    ensures { OnOk result (string_bytes out.new ≡ string_bytes out.old ++ first_front count event.now) }
{
    match event {
        Event::Member(_) => out.push_str("member "),
        _ => write!(out, "entry {count} "),
    }
}

// Adds the lines of a step, with the ledger after it.
fn push_step(out: &mut String, ledger: &Ledger, step: &SeatStep) -> Result<(), AllocError>
    ensures { OnOk result (string_bytes out.new ≡ string_bytes out.old ++ step_text ledger.now step.now) }
{
    let call = &step.outcome.call;
    push_front(out, ledger.count, &step.event)?;
    push_event(out, Version::Second, &step.event, step.incarnation, call)?;
    out.push_str("\n")?;
    push_answer(out, step.outcome.reply)?;
    push_tag(out, ledger.tags.as_slice(), step.outcome.reply)?;
    push_sends(out, step.outcome.sends.as_slice())
}

// Adds the block of these steps, of a line with this tag.
fn push_block(
    out: &mut String,
    tag: Option<u64>,
    ledger: &mut Ledger,
    steps: &[SeatStep],
) -> Result<(), AllocError>
    ensures { OnOk result ((text : List ℕ) × (block tag ledger.old (Ok steps.now) ≡ (ledger.new, text)) × (string_bytes out.new ≡ string_bytes out.old ++ text)) }
{
    for step in steps {
        ledger.note(tag, step)?;
        push_step(out, ledger, step)?;
    }
    push_end(out, ledger.count)
}

/// Adds the block of a line that is refused.
pub fn push_refused(out: &mut String, code: u16) -> Result<(), AllocError>
    ensures { OnOk result (string_bytes out.new ≡ string_bytes out.old ++ refused_line code) }
{
    writeln!(out, "refused {code}")
}

/// Adds the block of a line that is none.
pub fn push_bad(out: &mut String, column: usize) -> Result<(), AllocError>
    ensures { OnOk result (string_bytes out.new ≡ string_bytes out.old ++ bad_line column) }
{
    writeln!(out, "refused 9 {column}")
}

// Adds the cluster of a seat.
fn push_cluster(out: &mut String, shape: &Shape) -> Result<(), AllocError>
    ensures { OnOk result (string_bytes out.new ≡ string_bytes out.old ++ cluster_text shape.now) }
{
    let nodes = shape.nodes();
    let files = shape.files();
    let policy = Policy::word(shape.policy());
    write!(out, "seat 2 nodes {nodes} files {files} policy {policy} ")
}

// What the first line of a seat ends with.
fn again_text(again: bool) -> &'static str
    ensures { result.now ≡ again_text again }
{
    if again { " again" } else { "" }
}

// Adds whose seat it is.
fn push_whose(out: &mut String, actor: Actor, again: bool) -> Result<(), AllocError>
    ensures { OnOk result (string_bytes out.new ≡ string_bytes out.old ++ whose_text actor again) }
{
    push_actor(out, actor)?;
    out.push_str(again_text(again))?;
    out.push_str("\n")
}

/// Adds the block with which the seat of the actor begins; `again`: it works only once its actor begins again.
pub fn push_begin(
    out: &mut String,
    shape: &Shape,
    actor: Actor,
    again: bool,
) -> Result<(), AllocError>
    ensures { OnOk result (string_bytes out.new ≡ string_bytes out.old ++ first_block shape.now actor again) }
{
    push_cluster(out, shape)?;
    push_whose(out, actor, again)?;
    push_end(out, 0)
}
