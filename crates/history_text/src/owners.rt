//! The owners that lines name, with their lives.
ghost use Rattle.std.specs.Prelude.{◌≡◌, ◌≢◌, ◌≤◌, ◌<◌, ◌+◌, ℕ, [], length, Some, IfOk, IfSome, IsTrue, MatchOption, OnOk, ◌↔◌};
ghost use Rattle.texts.specs.rule.Reads.{IsWithin};
ghost use Rattle.history_text.specs.code.Readings.{AreLives, AreOwners, Extends, Grows, HasBegun, HasExit, HasLife, IsLife};
ghost use Rattle.history_text.specs.rule.Owners.{owner_numbered, most_owners, IsTimed};

use crate::{LineError, LineWord, Names};
use model::{Kind, Owner};
use std::alloc::{AllocError, Global};

// The number of owners that can be told apart.
const MOST_OWNERS: usize = 1_073_725_440;

// The number of processes of an incarnation of a node.
const PROCESSES: usize = 256;

// The number of incarnations of a node.
const INCARNATIONS: usize = 65_535;

/// An exit: the number of its line, its begin, and its end, if that is known.
#[derive(Clone, Copy)]
pub(crate) struct Exit {
    pub(crate) line: u64,
    pub(crate) begin: u64,
    pub(crate) end: Option<u64>,
}

/// The life of an owner, as lines say it: the latest begin of its calls, with its exit, and its exit, if it has one.
#[derive(Clone, Copy)]
pub(crate) struct Life {
    pub(crate) latest: u64,
    pub(crate) exit: Option<Exit>,
}

impl Life {
    // The life of an owner that is only named.
    fn new() -> Life
        ensures { (lines : ℕ) → IsLife lines result }
    {
        Life {
            latest: 0,
            exit: None,
        }
    }

    // The life with a call that begins at that time; else the reason why it may not.
    fn with_call(&self, begin: u64) -> Result<Life, &'static str>
        ensures grows { IfOk result (Grows self.now) }
        ensures begun { IfOk result (λ life. begin ≤ life.latest) }
        ensures life { IfOk result (λ life. (lines : ℕ) → IsLife lines self.now → IsLife lines life) }
    {
        if !may_begin(self.exit, begin) {
            return Err("the call begins behind the end of its owner's exit");
        }
        Ok(Life {
            latest: self.latest.max(begin),
            exit: self.exit,
        })
    }

    // The life with this exit, whose begin is counted with the calls; else the reason why it may not stand there.
    fn with_exit(&self, exit: Exit) -> Result<Life, &'static str>
        requires { exit.begin ≤ self.now.latest }
        ensures grows { IfOk result (Grows self.now) }
        ensures latest { IfOk result (λ life. life.latest ≡ self.now.latest) }
        ensures life { IfOk result (λ life. (lines : ℕ) → IsWithin 1 lines exit.line → IsLife lines life) }
    {
        if self.exit.is_some() {
            return Err("the owner has another exit");
        }
        if !is_timed(self.latest, exit.end) {
            return Err("the exit ends before a call of its owner begins");
        }
        Ok(Life {
            latest: self.latest,
            exit: Some(exit),
        })
    }
}

/// Whether a call of an owner with this exit, if it has one, may begin at that time.
pub(crate) fn may_begin(exit: Option<Exit>, begin: u64) -> bool
    ensures { IsTrue result ↔ IfSome exit (λ exit. IsTimed begin exit.end) }
{
    match exit {
        Some(exit) => is_timed(begin, exit.end),
        None => true,
    }
}

// Whether what begins at that time may have this end: no earlier one.
fn is_timed(begin: u64, end: Option<u64>) -> bool
    ensures { IsTrue result ↔ IsTimed begin end }
{
    match end {
        Some(end) => begin <= end,
        None => true,
    }
}

/// The owners that lines name, and the life of each.
#[derive(Drop)]
pub(crate) struct Owners {
    pub(crate) names: Names,
    pub(crate) lives: Vec<Life>,
}

impl Owners {
    /// No owners.
    pub(crate) fn new(alloc: Global) -> Owners
        ensures owners { AreOwners result.names result.lives.items }
        ensures lives { result.lives.items ≡ [] }
    {
        Owners {
            names: Names::new(alloc),
            lives: Vec::new(alloc),
        }
    }

    /// The number of the owner that the word names. A new owner comes last.
    ///
    /// # Errors
    /// `NoMemory` where a request for memory was refused, and `Bad` where the owner would be one more than
    /// 1,073,725,440.
    pub(crate) fn number_of(
        &mut self,
        alloc: Global,
        word: &LineWord<'_>,
    ) -> Result<usize, LineError>
        requires { AreOwners self.old.names self.old.lives.items }
        ensures owners { OnOk result (AreOwners self.new.names self.new.lives.items) }
        ensures within { IfOk result (λ number. number < length self.new.lives.items) }
        ensures extends { OnOk result (Extends self.old.lives.items self.new.lives.items) }
        ensures lives { OnOk result ((lines : ℕ) → AreLives lines self.old.lives.items → AreLives lines self.new.lives.items) }
    {
        let number = self.names.number_of(alloc, word.text)?;
        if number >= MOST_OWNERS {
            return Err(word.fault("the history has too many owners"));
        }
        if number == self.lives.len() {
            push_life(&mut self.lives)?;
        }
        Ok(number)
    }

    /// Notes that the owner begins a call at that time; else says why it may not.
    pub(crate) fn begin_call(&mut self, number: usize, begin: u64) -> Result<(), &'static str>
        requires owners { AreOwners self.old.names self.old.lives.items }
        requires within { number < length self.old.lives.items }
        ensures owners { OnOk result (AreOwners self.new.names self.new.lives.items) }
        ensures extends { OnOk result (Extends self.old.lives.items self.new.lives.items) }
        ensures begun { OnOk result (HasBegun self.new.lives.items number begin) }
        ensures lives { OnOk result ((lines : ℕ) → AreLives lines self.old.lives.items → AreLives lines self.new.lives.items) }
    {
        let life = self.lives[number].with_call(begin)?;
        self.lives[number] = life;
        Ok(())
    }

    /// Notes the exit of the owner, a call that it has begun; else says why it may not stand there.
    pub(crate) fn exit(&mut self, number: usize, exit: Exit) -> Result<(), &'static str>
        requires owners { AreOwners self.old.names self.old.lives.items }
        requires begun { HasBegun self.old.lives.items number exit.begin }
        ensures owners { OnOk result (AreOwners self.new.names self.new.lives.items) }
        ensures extends { OnOk result (Extends self.old.lives.items self.new.lives.items) }
        ensures lives { OnOk result ((lines : ℕ) → IsWithin 1 lines exit.line → AreLives lines self.old.lives.items → AreLives lines self.new.lives.items) }
    {
        let life = self.lives[number].with_exit(exit)?;
        self.lives[number] = life;
        Ok(())
    }

    /// The owner's life, if it is one of them.
    pub(crate) fn life_of(&self, owner: &Owner) -> Option<Life>
        ensures { IfSome result (HasLife self.now.lives.items owner.now) }
    {
        let number = number_of(owner)?;
        self.lives.get(number).copied()
    }

    /// The owner's exit, if there is one.
    pub(crate) fn exit_of(&self, owner: &Owner) -> Option<Exit>
        ensures { IfSome result (HasExit self.now.lives.items owner.now) }
    {
        self.life_of(owner)?.exit
    }
}

// Appends the life of one more owner.
fn push_life(lives: &mut Vec<Life>) -> Result<(), AllocError>
    ensures extends { OnOk result (Extends lives.old.items lives.new.items) }
    ensures lives { OnOk result ((lines : ℕ) → AreLives lines lives.old.items → AreLives lines lives.new.items) }
    ensures count { OnOk result (length lives.new.items ≡ length lives.old.items + 1) }
{
    lives.push(Life::new())?;
    Ok(())
}

/// The owner that stands for the name of that number, from 0.
pub(crate) fn owner_of(number: usize) -> Owner
    requires { number < most_owners }
    ensures { result ≡ owner_numbered number }
{
    let hosts = number / PROCESSES;
    Owner {
        node: (hosts / INCARNATIONS + 1) as u8,
        incarnation: (hosts % INCARNATIONS + 1) as u16,
        kind: Kind::OfProcess,
        number: (number % PROCESSES + 1) as u16,
    }
}

/// The number of the name that the owner stands for, if it stands for one.
pub(crate) fn number_of(owner: &Owner) -> Option<usize>
    ensures { MatchOption result ((number : ℕ) → owner.now ≢ owner_numbered number) (λ number. owner.now ≡ owner_numbered number) }
{
    match owner.kind {
        Kind::OfProcess => {
            let hosts = (usize::from(owner.node) - 1) * INCARNATIONS
                + usize::from(owner.incarnation)
                - 1;
            Some(hosts * PROCESSES + usize::from(owner.number) - 1)
        }
        Kind::OfDescription => None,
    }
}
