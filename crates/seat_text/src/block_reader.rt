//! Reads the blocks of logs, and of lists of declarations and starts.
//!
//! Each function here that can fail errs with `AllocError`, where a request for memory was refused.
ghost use Rattle.std.specs.Prelude.{◌≡◌, ◌++◌, ◌+◌, ◌<◌, ◌^◌, codes, length, IfSome, MatchOption, true, decimal, IfOk, Some};
ghost use Rattle.messages.specs.declared.version.Version.TheVariants.{Second};
ghost use Rattle.messages.specs.rule.Messages.{addressee};
ghost use Rattle.message_text.specs.rule.Texts.{message_text};
ghost use Rattle.journal_text.specs.rule.Events.{IsServedEvent, named_text};
ghost use Rattle.journal_text.specs.rule.Journals.{end_text, reply_line};
ghost use Rattle.journal_text.specs.rule.Texts.{member_text};
ghost use Rattle.seat_text.specs.rule.Blocks.{actor_text, again_text, cluster_text, whose_text, first_block, to_line, to_lines};
ghost use Rattle.seat_text.specs.rule.Logs.{block_text, change_text, clock_line, said_text, step_text, steps_text, tag_line, list_head};

use crate::block::{Block, LogChange, LogHead, LogStep, Said};
use crate::seat_line::WideField;
use journal_text::builder::entry_of;
use journal_text::events::event_in;
use journal_text::named_entry::NamedEntry;
use journal_text::named_event::NamedEvent;
use journal_text::operands::AnswerFields;
use lockscript::{shape_operands, split_line};
use merges::Interval;
use message_text::{
    CountField, Counted, FileField, HostName, NodeField, SecondEdition, message_of, server_of,
};
use messages::{Actor, MemberEvent, Message, Sends, Shape, Version};
use model::{CallId, Host, Reply};
use std::alloc::{AllocError, Global};
use texts::front::{After, Front};
use texts::number::Within;
use texts::text::{Text, after, split_field};

/// The rest of a log, and the number of its lines that were read.
#[derive(Drop)]
pub(crate) struct LineReader<'a> {
    pub(crate) text: &'a str,
    taken: u64,
    ghost countable: { taken + length text.now < 2 ^ 63 },
}

impl<'a> LineReader<'a> {
    /// The reader before the first line.
    pub(crate) fn new(text: &'a str) -> LineReader<'a>
        ensures { result.text.now ≡ text.entry.now }
    {
        LineReader { text, taken: 0 }
    }

    /// The number of the next line.
    pub(crate) fn next_number(&self) -> u64 {
        self.taken + 1
    }

    // What stands in the next line behind `front`, where it begins so, and the text behind the line.
    fn seen(&self, front: &str) -> Option<(&'a str, &'a str)>
        ensures text { IfSome result (λ parts. self.now.text.now ≡ front.now ++ (parts.0.now ++ (codes "\n" ++ parts.1.now))) }
        ensures shorter { IfSome result (λ parts. length parts.1.now < length self.now.text.now) }
    {
        let (line, rest) = split_line(self.text)?;
        let operands = after(line, front)?;
        Some((operands, rest))
    }

    // The value whose text stands in the next line behind `front`, and the text behind the line.
    fn seen_as<T: Text>(&self, front: &str) -> Option<(T::Value, &'a str)>
        ensures shorter { IfSome result (λ found. length found.1.now < length self.now.text.now) }
        ensures text { IfSome result (λ found. T.is_served found.0 × (self.now.text.now ≡ front.now ++ (T.text_of found.0 ++ (codes "\n" ++ found.1.now)))) }
    {
        let (operands, rest) = self.seen(front)?;
        let value = T::read(operands)?;
        Some((value, rest))
    }

    // Goes on with what stands behind the next line.
    fn pass(&mut self, rest: &'a str)
        requires { length rest.now < length self.old.text.now }
        ensures { self.new.text.now ≡ rest.entry.now }
    {
        self.text = rest;
        self.taken += 1;
    }

    // Passes over the next line, where it is a value's text behind `front`: the result is this value.
    fn next_of<T: Text>(&mut self, front: &str) -> Option<T::Value>
        ensures { MatchOption result (self.new.text.now ≡ self.old.text.now)
            (λ value. T.is_served value × (self.old.text.now ≡ front.now ++ (T.text_of value ++ (codes "\n" ++ self.new.text.now)))) }
    {
        let (value, rest) = self.seen_as::<T>(front)?;
        self.pass(rest);
        Some(value)
    }
}

// A reading of a clock.
type MomentField = Within<u64, 0, 9_223_372_036_854_775_807>;

// The operands of `at`: `BEGIN END`.
type ClockFields = (MomentField, MomentField);

// The operand of `refused`: a code.
type CodeField = Within<u16, 1, 65_535>;

// Whether this kind and this number name the actor.
fn names(kind: &str, number: &str, actor: Actor) -> bool
    ensures { result ≡ true → kind.now ++ (codes " " ++ number.now) ≡ actor_text actor }
{
    match actor {
        Actor::Node(node) => {
            kind == "node" && matches!(NodeField::read(number), Some(named) if named == node)
        }
        Actor::Server(file) => {
            kind == "server" && matches!(FileField::read(number), Some(named) if named == file)
        }
    }
}

// The message that is sent to its addressee, by what stands behind `to `.
fn sent_in(alloc: Global, operands: &str) -> Result<Option<Message>, AllocError>
    ensures { IfOk result (λ found. IfSome found (λ m. operands.now ≡ actor_text (addressee m) ++ (codes " " ++ message_text Second m))) }
{
    let Some((kind, rest)) = split_field(operands) else {
        return Ok(None);
    };
    let Some((number, text)) = split_field(rest) else {
        return Ok(None);
    };
    let Some(written) = message_of(Version::Second, text) else {
        return Ok(None);
    };
    let message = written.message(alloc)?;
    if !names(kind, number, message.addressee()) {
        return Ok(None);
    }
    Ok(Some(message))
}

// The declaration or the start whose text this is, with the incarnation or the epoch that it names.
fn change_of(text: &str) -> Option<(MemberEvent, u16)>
    ensures { IfSome result (λ change. text.now ≡ member_text change.0 change.1) }
{
    let (word, name) = split_field(text)?;
    match word {
        "declare" => {
            let Host { node, incarnation } = HostName::read(name)?;
            Some((MemberEvent::Declare { node }, incarnation))
        }
        "restart" => {
            let Host { node, incarnation } = HostName::read(name)?;
            Some((MemberEvent::Restart { node }, incarnation))
        }
        "fail-server" => {
            let (file, epoch) = server_of(name)?;
            Some((MemberEvent::FailServer { file }, epoch))
        }
        "start-server" => {
            let (file, epoch) = server_of(name)?;
            Some((MemberEvent::StartServer { file }, epoch))
        }
        _ => None,
    }
}

// Whether the event is a declaration or a start.
fn is_change(event: &NamedEvent<'_>) -> bool {
    matches!(
        event,
        NamedEvent::Declare { .. }
            | NamedEvent::Restart { .. }
            | NamedEvent::FailServer { .. }
            | NamedEvent::StartServer { .. }
    )
}

// The first line of a log whose text this is.
fn head_of(line: &str) -> Option<LogHead>
    ensures { IfSome result (λ head. line.now ++ codes "\n" ≡ cluster_text head.shape ++ whose_text head.actor head.again) }
{
    let operands = after(line, "seat 2 nodes ")?;
    let (counts, actor, again) = whose_of(operands)?;
    let shape = shape_operands(Version::Second, counts)?;
    Some(LogHead {
        shape,
        actor,
        again,
    })
}

// The text before the actor's, the actor, and whether it worked only once it began again.
fn whose_of(text: &str) -> Option<(&str, Actor, bool)>
    ensures { IfSome result (λ found. text.now ≡ found.0.now ++ (codes " " ++ (actor_text found.1 ++ again_text found.2))) }
{
    if let Some((counts, rest)) = text.split_once(" node ") {
        let (number, again) = again_of(rest)?;
        return Some((counts, Actor::Node(NodeField::read(number)?), again));
    }
    let (counts, rest) = text.split_once(" server ")?;
    let (number, again) = again_of(rest)?;
    Some((counts, Actor::Server(FileField::read(number)?), again))
}

// The text before ` again`, or the whole text, and whether that stood behind it.
fn again_of(text: &str) -> Option<(&str, bool)>
    ensures { IfSome result (λ found. text.now ≡ found.0.now ++ again_text found.1) }
{
    match split_field(text) {
        Some((number, "again")) => Some((number, true)),
        Some(_) => None,
        None => Some((text, false)),
    }
}

impl<'a> LineReader<'a> {
    /// The next line, if it is a line `at`.
    pub(crate) fn clock(&mut self) -> Option<Interval>
        ensures { self.old.text.now ≡ clock_line result ++ self.new.text.now }
    {
        let ((began, ended), rest) = self.seen_as::<ClockFields>("at ")?;
        if ended < began {
            return None;
        }
        self.pass(rest);
        Some(Interval { began, ended })
    }

    // The next line, if it says that an entry answers a call.
    fn reply(&mut self) -> Option<(CallId, Reply)>
        ensures { self.old.text.now ≡ reply_line result ++ self.new.text.now }
    {
        self.next_of::<AnswerFields>("reply ")
    }

    // The next line, if it has the tag of a call.
    fn tag(&mut self) -> Option<u64>
        ensures { self.old.text.now ≡ tag_line result ++ self.new.text.now }
    {
        self.next_of::<WideField>("tag ")
    }

    // The next line, if it says that a message is sent.
    fn send(&mut self, alloc: Global) -> Result<Option<Message>, AllocError>
        ensures text { IfOk result (λ found. MatchOption found (self.new.text.now ≡ self.old.text.now) (λ m. self.old.text.now ≡ to_line m ++ self.new.text.now)) }
        ensures shorter { IfOk result (λ found. IfSome found (λ m. length self.new.text.now < length self.old.text.now)) }
    {
        let Some((operands, rest)) = self.seen("to ") else {
            return Ok(None);
        };
        let Some(message) = sent_in(alloc, operands)? else {
            return Ok(None);
        };
        self.pass(rest);
        Ok(Some(message))
    }

    // The lines that come next and say that messages are sent.
    fn sends(&mut self, alloc: Global) -> Result<Sends, AllocError>
        ensures { IfOk result (λ sends. self.old.text.now ≡ to_lines sends ++ self.new.text.now) }
    {
        let mut sends = Sends::nothing();
        while let Some(message) = self.send(alloc)? {
            sends.push(alloc, message)?;
        }
        Ok(sends)
    }

    // The event of the next line, if that begins the entry of this position.
    fn event(&mut self, position: u32) -> Option<NamedEvent<'a>>
        ensures { MatchOption result (self.new.text.now ≡ self.old.text.now) (λ e. IsServedEvent Second e
            × (self.old.text.now ≡ codes "entry " ++ (decimal position ++ (codes " " ++ (named_text Second e ++ (codes "\n" ++ self.new.text.now)))))) }
    {
        let (operands, rest) = self.seen("entry ")?;
        let (number, text) = split_field(operands)?;
        let told = Counted::read(number)?;
        let event = event_in::<SecondEdition>(text)?;
        if told != position || is_change(&event) {
            return None;
        }
        self.pass(rest);
        Some(event)
    }

    // The entry of this position, if its lines come next.
    #[tactic(auto, using(crate::proofs::Reading::names_its_incarnation))]
    fn step(&mut self, alloc: Global, position: u32) -> Result<Option<LogStep>, AllocError>
        ensures text { IfOk result (λ found. MatchOption found (self.new.text.now ≡ self.old.text.now) (λ s. self.old.text.now ≡ step_text position s ++ self.new.text.now)) }
        ensures shorter { IfOk result (λ found. IfSome found (λ s. length self.new.text.now < length self.old.text.now)) }
    {
        let Some(event) = self.event(position) else {
            return Ok(None);
        };
        let reply = self.reply();
        let tag = self.tag();
        let sends = self.sends(alloc)?;
        let named = NamedEntry {
            event,
            reply,
            sends,
        };
        let entry = entry_of(alloc, named)?;
        Ok(Some(LogStep { entry, tag }))
    }

    // The entries whose lines come next, behind so many.
    fn steps(&mut self, alloc: Global, count: u32) -> Result<Vec<LogStep>, AllocError>
        ensures { IfOk result (λ steps. self.old.text.now ≡ steps_text count steps.items ++ self.new.text.now) }
    {
        let mut steps = Vec::new(alloc);
        let mut position = count;
        while position < u32::MAX {
            position += 1;
            match self.step(alloc, position)? {
                Some(step) => steps.push(step)?,
                None => return Ok(steps),
            }
        }
        Ok(steps)
    }

    // The declaration or the start of the next line, if it is one, with the messages of the lines behind it.
    fn change(&mut self, alloc: Global) -> Result<Option<LogChange>, AllocError>
        ensures { IfOk result (λ change. self.old.text.now ≡ change_text change ++ self.new.text.now) }
    {
        let Some((event, incarnation)) = self.member() else {
            return Ok(None);
        };
        let sends = self.sends(alloc)?;
        Ok(Some(LogChange {
            event,
            incarnation,
            sends,
        }))
    }

    /// The declaration or the start of the next line, if it is one.
    pub(crate) fn member(&mut self) -> Option<(MemberEvent, u16)>
        ensures { MatchOption result (self.new.text.now ≡ self.old.text.now)
            (λ change. self.old.text.now ≡ codes "member " ++ (member_text change.0 change.1 ++ (codes "\n" ++ self.new.text.now))) }
    {
        let (operands, rest) = self.seen("member ")?;
        let change = change_of(operands)?;
        self.pass(rest);
        Some(change)
    }

    /// Passes over the next line, if it ends a block behind so many entries.
    pub(crate) fn ends(&mut self, count: usize) -> bool
        ensures { result ≡ true → self.old.text.now ≡ end_text count ++ (codes "\n" ++ self.new.text.now) }
    {
        match self.seen_as::<CountField>("end ") {
            Some((told, rest)) if told as usize == count => {
                self.pass(rest);
                true
            }
            _ => false,
        }
    }

    // The next line, if it is a refusal.
    fn refusal(&mut self) -> Option<Said>
        ensures { MatchOption result (self.new.text.now ≡ self.old.text.now) (λ said. (count : _) → self.old.text.now ≡ said_text count said ++ self.new.text.now) }
    {
        if let Some(code) = self.next_of::<CodeField>("refused ") {
            return Some(Said::Refused(code));
        }
        let column = self.next_of::<WideField>("refused 9 ")?;
        Some(Said::NoLine(column))
    }

    // What a block says, behind so many entries.
    fn said(&mut self, alloc: Global, count: u32) -> Result<Option<Said>, AllocError>
        ensures { IfOk result (λ found. IfSome found (λ said. self.old.text.now ≡ said_text count said ++ self.new.text.now)) }
    {
        if let Some(refusal) = self.refusal() {
            return Ok(Some(refusal));
        }
        let change = self.change(alloc)?;
        let steps = self.steps(alloc, count)?;
        if !self.ends(count as usize + steps.len()) {
            return Ok(None);
        }
        Ok(Some(Said::Did(change, steps)))
    }

    /// The block that comes next, behind so many entries. Where there is none, the reader stands before the line that may not
    /// stand there.
    pub(crate) fn block(&mut self, alloc: Global, count: u32) -> Result<Option<Block>, AllocError>
        ensures { IfOk result (λ found. IfSome found (λ block. self.old.text.now ≡ block_text count block ++ self.new.text.now)) }
    {
        let clock = self.clock();
        match self.said(alloc, count)? {
            Some(said) => Ok(Some(Block { clock, said })),
            None => Ok(None),
        }
    }

    /// The first block of a log. Where there is none, the reader stands before the line that may not stand there.
    pub(crate) fn head(&mut self) -> Option<LogHead>
        ensures { IfSome result (λ head. (clock : _) × (self.old.text.now ≡ clock_line clock ++ (first_block head.shape head.actor head.again ++ self.new.text.now))) }
    {
        let _ = self.clock();
        let (line, rest) = self.seen("")?;
        let head = head_of(line)?;
        self.pass(rest);
        if !self.ends(0) {
            return None;
        }
        Some(head)
    }
}

struct FilesWord;

impl Front for FilesWord {
    ghost front = { codes "files " };

    fn front_text() -> &'static str {
        "files "
    }
}

// The operands of `members 2 nodes`: `N files F`.
type SizeFields = (NodeField, After<FilesWord, FileField>);

impl<'a> LineReader<'a> {
    /// The numbers of nodes and files of the first block of a list. Where there is none, the reader stands before the line
    /// that may not stand there.
    pub(crate) fn list_head(&mut self) -> Option<(u8, u16)>
        ensures { IfSome result (λ size. self.old.text.now ≡ list_head size.0 size.1 ++ self.new.text.now) }
    {
        let size = self.next_of::<SizeFields>("members 2 nodes ")?;
        if !self.ends(0) {
            return None;
        }
        Some(size)
    }
}
