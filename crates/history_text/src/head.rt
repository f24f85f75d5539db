//! The lines of a history that are none of calls: its first line, machines with the owners on them, notes and losses.
ghost use Rattle.std.specs.Prelude.{◌≡◌, ◌≤◌, [], OnOk};
ghost use Rattle.history_text.specs.code.Readings.{AreLosses, ArePaired};

use crate::{
    Allowed, LineError, LineWord, LineWords, Loss, Losses, MISSING, NO_HEAD, NO_OWNER, next_end,
    next_time,
};
use std::alloc::Global;
use texts::text::split_at_first;

/// A machine on which clients ran, and how far its clock may be off, either way, in the unit of the history.
#[derive(Drop)]
pub struct Machine {
    pub name: String,
    pub skew: u64,
}

/// Whether one of the machines has the name.
pub(crate) fn is_declared(machines: &[Machine], name: &str) -> bool {
    machines.iter().any(|machine| machine.name.as_str() == name)
}

/// Refuses a word that names no owner. An owner is any word but `?`; where machines are declared, it is one with `@`
/// and a machine's name behind it.
pub(crate) fn check_owner(word: &LineWord<'_>, machines: &[Machine]) -> Result<(), LineError> {
    match split_at_first(word.text, b'@') {
        Some(("", _)) => Err(word.fault(NO_OWNER)),
        Some((_, machine)) if !is_declared(machines, machine) => {
            Err(word.fault("the machine is not declared"))
        }
        None if word.text == "?" => Err(word.fault(NO_OWNER)),
        None if !machines.is_empty() => Err(word.fault("the owner names no machine")),
        _ => Ok(()),
    }
}

/// What lines that are none of calls say: whether the first one was read; the machines; and losses of locks, if the
/// rules let them count.
#[derive(Drop)]
pub(crate) struct Head {
    pub(crate) is_read: bool,
    pub(crate) machines: Vec<Machine>,
    pub(crate) losses: Losses,
}

impl Head {
    /// Nothing was read.
    pub(crate) fn new(alloc: Global) -> Head
        ensures paired { ArePaired result.losses }
        ensures none { result.losses.losses.items ≡ [] }
    {
        Head {
            is_read: false,
            machines: Vec::new(alloc),
            losses: Losses::new(alloc),
        }
    }

    /// Takes the line of this number, which is none of a call, where these rules are allowed.
    ///
    /// # Errors
    /// `NoMemory` where a request for memory was refused; `Bad` with the first word that may not stand there.
    pub(crate) fn take(
        &mut self,
        alloc: Global,
        allowed: Allowed,
        line: u64,
        text: &str,
        has_calls: bool,
    ) -> Result<(), LineError>
        requires line { 1 ≤ line }
        requires paired { ArePaired self.old.losses }
        ensures paired { OnOk result (ArePaired self.new.losses) }
        ensures losses { OnOk result (AreLosses allowed line self.old.losses → AreLosses allowed line self.new.losses) }
    {
        if text.is_empty() || text.starts_with('#') {
            return Ok(());
        }
        let mut words = LineWords::of(text);
        let word = words.next_word()?;
        if !self.is_read {
            if word.text != "history" {
                return Err(word.fault(NO_HEAD));
            }
            self.is_read = true;
            return check_head(&mut words);
        }
        match word.text {
            "note" => Ok(()),
            "lost" => take_loss(alloc, allowed, line, &mut words, &mut self.losses),
            "machine" if has_calls => {
                Err(word.fault("a machine is declared before the first call"))
            }
            "machine" => take_machine(alloc, &mut words, &mut self.machines),
            "history" => Err(word.fault("the line `history` stands once, before all others")),
            "call" => Err(words.fault(MISSING)),
            _ => Err(word.fault("expected `call`, `machine`, `note` or `lost`")),
        }
    }
}

// Takes the words `1 clock UNIT`.
fn check_head(words: &mut LineWords<'_>) -> Result<(), LineError> {
    words.expect_word("1", NO_HEAD)?;
    words.expect_word("clock", NO_HEAD)?;
    let unit = words.next_word()?;
    match unit.text {
        "ns" | "us" | "order" => words.end(),
        _ => Err(unit.fault("expected `ns`, `us` or `order`")),
    }
}

// Takes the words `NAME skew S` of a machine.
fn take_machine(
    alloc: Global,
    words: &mut LineWords<'_>,
    machines: &mut Vec<Machine>,
) -> Result<(), LineError> {
    let word = words.next_word()?;
    if is_declared(machines, word.text) {
        return Err(word.fault("the machine is declared before"));
    }
    words.expect_word("skew", "expected `skew`")?;
    let skew = next_time(words)?;
    words.end()?;
    let name = String::from_str(alloc, word.text)?;
    machines
        .push(Machine { name, skew })
        .map_err(|_| LineError::NoMemory)
}

// Takes the words `BEGIN END F` of a loss in the line of this number.
fn take_loss(
    alloc: Global,
    allowed: Allowed,
    line: u64,
    words: &mut LineWords<'_>,
    losses: &mut Losses,
) -> Result<(), LineError>
    requires line { 1 ≤ line }
    requires paired { ArePaired losses.old }
    ensures paired { OnOk result (ArePaired losses.new) }
    ensures losses { OnOk result (AreLosses allowed line losses.old → AreLosses allowed line losses.new) }
{
    let begin = next_time(words)?;
    let end = next_end(words, begin, "the loss ends before it begins")?;
    let file = words.next_word()?;
    words.end()?;
    if !allowed.lost_at {
        return Ok(());
    }
    losses.push(alloc, file.text, Loss { line, begin, end })?;
    Ok(())
}
