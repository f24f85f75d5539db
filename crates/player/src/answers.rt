//! What the lines of a script come to in a run of it.
ghost use Rattle.std.specs.Prelude.{◌≡◌, ◌++◌, ◌∷◌, [], ℕ, if◌then◌else◌, string_bytes, IfOk, List, OnOk, ◌==◌, ◌&&◌, length, slice_get};
ghost use Rattle.lockscript.specs.declared.refused_line.RefusedLine.{RefusedLine};
ghost use Rattle.player.specs.rule.Expectations.{answer_text, answers_behind, is_taken};
ghost use Rattle.player.specs.code.Answers.{list_in, answer_by, KnowsRefusals};

use lockscript::{RefusedLine, ScriptCommand, ScriptLine, push_reply};
use messages::{Entry, Event, NodeInput};
use model::{CallId, Reply};
use std::alloc::{AllocError, Global};
use std::collections::HashMap;
use std::fmt::Write;
use std::marker::Model;

/// What a line of a script comes to in a run of it.
#[derive(Clone, Copy)]
pub(crate) enum LineAnswer {
    /// It is no call.
    NotMade,
    /// It was refused, with the number of the refusal.
    Refused(u16),
    /// The call was made, and no entry replies to it.
    Open,
    /// The reply to the call.
    Replied(Reply),
}

// By the number of a line: the number of its refusal.
type Refusals = HashMap<u64, u16>;

/// What each line of the script comes to in a run of it in which these lines were refused and which has these entries.
///
/// # Errors
/// `AllocError` where a request for memory was refused.
pub(crate) fn run_answers(
    alloc: Global,
    lines: &[ScriptLine],
    refused: &[RefusedLine],
    entries: &[Entry],
) -> Result<Vec<LineAnswer>, AllocError>
    ensures { IfOk result (λ answers. answers.items ≡ answers_behind [] lines.now refused.now entries.now) }
{
    let refusals = refusals(alloc, refused)?;
    let told = CallReplies::of(alloc, entries)?;
    let mut taken = HashMap::new(alloc);
    let mut answers = Vec::new(alloc);
    for line in lines {
        let refusal = refusals.get(&u64::from(line.number())).copied();
        let answer = note_line(&mut taken, alloc, &told, refusal, line)?;
        answers.push(answer)?;
    }
    Ok(answers)
}

// What the next line comes to, which was refused so, or was not. `taken` has for each process its lines that were taken, by
// their numbers.
fn note_line(
    taken: &mut ByProcess<u32>,
    alloc: Global,
    told: &CallReplies<'_>,
    refusal: Option<u16>,
    line: &ScriptLine,
) -> Result<LineAnswer, AllocError>
    ensures answer { IfOk result (λ answer. answer ≡ answer_by refusal taken.old told.now line.now.command) }
    ensures taken { OnOk result ((node pid : ℕ) → list_in taken.new node pid ≡ list_in taken.old node pid ++ (if is_taken refusal node pid line.now.command then line.now.number ∷ [] else [])) }
{
    let ScriptCommand::Call { node, pid, .. } = line.command() else {
        return Ok(LineAnswer::NotMade);
    };
    if let Some(code) = refusal {
        return Ok(LineAnswer::Refused(code));
    }
    let answer = told.answer(node, pid, count(taken, node, pid));
    add(taken, alloc, node, pid, line.number())?;
    Ok(answer)
}

// The number of the refusal of each line, of equal lines the first.
fn refusals(alloc: Global, refused: &[RefusedLine]) -> Result<Refusals, AllocError>
    ensures { IfOk result (λ refusals. KnowsRefusals refusals refused.now) }
{
    let mut refusals = HashMap::new(alloc);
    for index in (0..refused.len()).rev() {
        note_refusal(&mut refusals, &refused[index])?;
    }
    Ok(refusals)
}

// The refusal of a line that stands before those of which the index knows.
fn note_refusal(refusals: &mut Refusals, line: &RefusedLine) -> Result<(), AllocError>
    ensures { OnOk result ((behind : List RefusedLine) → KnowsRefusals refusals.old behind → KnowsRefusals refusals.new (line.now ∷ behind)) }
{
    refusals.insert(u64::from(line.line), line.code)?;
    Ok(())
}

/// Writes `not made`, `refused N`, `open`, or the reply.
pub(crate) fn push_answer(out: &mut String, answer: &LineAnswer) -> Result<(), AllocError>
    ensures { OnOk result (string_bytes out.new ≡ string_bytes out.old ++ answer_text answer.now) }
{
    match answer {
        LineAnswer::NotMade => out.push_str("not made"),
        LineAnswer::Refused(code) => write!(out, "refused {code}"),
        LineAnswer::Open => out.push_str("open"),
        LineAnswer::Replied(reply) => push_reply(out, reply),
    }
}

/// By a process, its node and its number there: a list. Of a process that it has not, the list is empty.
pub(crate) type ByProcess<T> = HashMap<(u8, u16), Vec<T>>;

/// The value comes last in the list of the process.
///
/// # Errors
/// `AllocError` where a request for memory was refused.
pub(crate) fn add<T: Drop>(
    lists: &mut ByProcess<T>,
    alloc: Global,
    node: u8,
    pid: u16,
    value: T,
) -> Result<(), AllocError>
    ensures { OnOk result ((n p : ℕ) → list_in lists.new n p ≡ list_in lists.old n p ++ (if (node == n) && (pid == p) then value ∷ [] else [])) }
{
    if let Some(list) = lists.get_mut(&(node, pid)) {
        list.push(value)?;
        return Ok(());
    }
    let mut list = Vec::new(alloc);
    list.push(value)?;
    lists.insert((node, pid), list)?;
    Ok(())
}

/// How many values the list of the process has.
pub(crate) fn count<T>(lists: &ByProcess<T>, node: u8, pid: u16) -> usize
    ensures { result ≡ length (list_in lists.now node pid) }
{
    match lists.get(&(node, pid)) {
        Some(list) => list.len(),
        None => 0,
    }
}

/// The value that the list of the process has at the index, if it has one.
pub(crate) fn value_at<T: Copy>(lists: &ByProcess<T>, node: u8, pid: u16, index: usize) -> Option<T>
    ensures { result ≡ slice_get (list_in lists.now node pid) index }
{
    match lists.get(&(node, pid)) {
        Some(list) => list.get(index).copied(),
        None => None,
    }
}

// By a process: the names of its calls, in the order in which they were taken.
type CallNames = ByProcess<CallId>;

// By a call: the first reply to it.
type Replies = HashMap<CallId, Reply>;

/// The names of the calls of entries, and the replies to them.
#[derive(Drop)]
pub(crate) struct CallReplies<'a> {
    entries: &'a [Entry],
    names: CallNames,
    replies: Replies,
}

impl<'a> Model for CallReplies<'a> {
    ghost use Rattle.std.specs.Prelude.{List};
    ghost use Rattle.messages.specs.rule.Entries.{EntryFields};
    ghost use Rattle.player.specs.code.Answers.{KnowsNames, KnowsReplies};

    ghost Value = { List EntryFields };

    ghost view = { λ t. t.entries.now };

    ghost invariant = { λ t. KnowsNames t.names t.entries.now × KnowsReplies t.replies t.entries.now };
}

impl<'a> CallReplies<'a> {
    ghost use Rattle.std.specs.Prelude.{◌≡◌, slice_get, IfOk};
    ghost use Rattle.player.specs.rule.Expectations.{named_answer, names, reply_answer};

    /// What these entries tell.
    ///
    /// # Errors
    /// `AllocError` where a request for memory was refused.
    pub(crate) fn of(alloc: Global, entries: &'a [Entry]) -> Result<CallReplies<'a>, AllocError>
        ensures { IfOk result (λ told. told ≡ entries.entry.now) }
    {
        Ok(CallReplies {
            entries,
            names: names(alloc, entries)?,
            replies: replies(alloc, entries)?,
        })
    }

    /// What the call at the index comes to, from 0, of those of the process that were taken.
    pub(crate) fn answer(&self, node: u8, pid: u16, index: usize) -> LineAnswer
        ensures { result ≡ named_answer (slice_get (names node pid self.now) index) self.now }
    {
        match value_at(&self.names, node, pid, index) {
            Some(call) => self.answer_to(&call),
            None => LineAnswer::Open,
        }
    }

    // The reply to the call; without one it is open.
    fn answer_to(&self, call: &CallId) -> LineAnswer
        ensures { result ≡ reply_answer call.now self.now }
    {
        match self.replies.get(call) {
            Some(reply) => LineAnswer::Replied(*reply),
            None => LineAnswer::Open,
        }
    }
}

ghost use Rattle.std.specs.Prelude.{◌≡◌, ◌++◌, ◌∷◌, [], ℕ, List, if◌then◌else◌, option_to_list, IfOk, OnOk};
ghost use Rattle.messages.specs.rule.Entries.{EntryFields};
ghost use Rattle.player.specs.rule.Expectations.{is_call_by};
ghost use Rattle.player.specs.code.Answers.{list_in};
ghost use Rattle.player.specs.code.Answers.{KnowsNames, KnowsReplies};

// The names of the calls of the entries.
fn names(alloc: Global, entries: &[Entry]) -> Result<CallNames, AllocError>
    ensures { IfOk result (λ names. KnowsNames names entries.now) }
{
    let mut names = HashMap::new(alloc);
    for entry in entries {
        note_name(&mut names, alloc, entry)?;
    }
    Ok(names)
}

// The name of the entry's call comes last of those of its process, if it has one.
fn note_name(names: &mut CallNames, alloc: Global, entry: &Entry) -> Result<(), AllocError>
    ensures { OnOk result ((node pid : ℕ) → list_in names.new node pid ≡ list_in names.old node pid ++ (if is_call_by node pid entry.now.event then option_to_list entry.now.call else [])) }
{
    let Some(call) = entry.call() else {
        return Ok(());
    };
    let Event::AtNode(node, NodeInput::Call { pid, .. }) = entry.event() else {
        return Ok(());
    };
    add(names, alloc, *node, *pid, call)?;
    Ok(())
}

// The first reply of the entries to each call.
fn replies(alloc: Global, entries: &[Entry]) -> Result<Replies, AllocError>
    ensures { IfOk result (λ replies. KnowsReplies replies entries.now) }
{
    let mut replies = HashMap::new(alloc);
    for index in (0..entries.len()).rev() {
        note_reply(&mut replies, &entries[index])?;
    }
    Ok(replies)
}

// The reply of an entry that stands before those of which the index knows.
fn note_reply(replies: &mut Replies, entry: &Entry) -> Result<(), AllocError>
    ensures { OnOk result ((behind : List EntryFields) → KnowsReplies replies.old behind → KnowsReplies replies.new (entry.now ∷ behind)) }
{
    if let Some(told) = entry.reply() {
        replies.insert(told.0, told.1)?;
    }
    Ok(())
}
