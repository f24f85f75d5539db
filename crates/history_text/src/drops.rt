//! Losses of the locks of files, as where a lock server began again, and the calls that drop all that an owner has in
//! a file: losses and exits. A function here that gives a `Result` answers `AllocError` where a request for memory was
//! refused.
ghost use Rattle.std.specs.Prelude.{◌≡◌, ℕ, [], true, None, All, IfSome, OnOk};
ghost use Rattle.client_history.specs.declared.act.Act.TheVariants.{Drops};
ghost use Rattle.history_text.specs.declared.rule.Allowed.{Allowed as Rules};
ghost use Rattle.history_text.specs.code.Readings.{Adds, IsLossOf, with_told, AreLives, AreLosses, ArePaired, IsLoss};

use crate::{Exit, FileCalls, Names, Owners, may_begin};
use client_history::{Act, ClientCall};
use indexmap::IndexSet;
use model::Owner;
use std::alloc::{AllocError, Global};

/// A loss of the locks of a file: the number of its line, and the times between which each owner lost what it had.
#[derive(Clone, Copy)]
pub(crate) struct Loss {
    pub(crate) line: u64,
    pub(crate) begin: u64,
    pub(crate) end: u64,
}

/// The losses of all files: the files' names, and at the same index the losses of each file, in the order of their
/// lines.
#[derive(Drop)]
pub(crate) struct Losses {
    pub(crate) files: Names,
    pub(crate) losses: Vec<Vec<Loss>>,
}

impl Losses {
    /// No losses.
    pub(crate) fn new(alloc: Global) -> Losses
        ensures paired { ArePaired result }
        ensures none { result.losses.items ≡ [] }
    {
        Losses {
            files: Names::new(alloc),
            losses: Vec::new(alloc),
        }
    }

    /// Appends the loss of the file of this name.
    pub(crate) fn push(&mut self, alloc: Global, file: &str, loss: Loss) -> Result<(), AllocError>
        requires { ArePaired self.old }
        ensures paired { OnOk result (ArePaired self.new) }
        ensures losses { OnOk result ((allowed : Rules) (lines : ℕ) → IsLoss allowed lines loss → AreLosses allowed lines self.old → AreLosses allowed lines self.new) }
    {
        let number = self.files.number_of(alloc, file)?;
        if number == self.losses.len() {
            self.losses.push(Vec::new(alloc))?;
        }
        self.losses[number].push(loss)?;
        Ok(())
    }

    /// The losses of the file of this name.
    pub(crate) fn of_file(&self, name: &str) -> &[Loss]
        requires { ArePaired self.now }
        ensures { (allowed : Rules) (lines : ℕ) → AreLosses allowed lines self.now → All (IsLoss allowed lines) result.now }
    {
        match self.files.find(name) {
            Some(number) => self.losses[number].as_slice(),
            None => &[],
        }
    }
}

/// Appends to the calls of the file what their owners lost there, and then the exits of their owners.
pub(crate) fn add_drops(
    alloc: Global,
    file: &mut FileCalls,
    owners: &Owners,
    losses: &[Loss],
) -> Result<(), AllocError>
    ensures { OnOk result ((allowed : Rules) (lines : ℕ) → AreLives lines owners.now.lives.items → All (IsLoss allowed lines) losses.now → Adds allowed owners.now.lives.items lines (with_told file.old) file.new) }
{
    let there = owners_in(alloc, file.calls.as_slice())?;
    file.told = file.lines.len();
    for loss in losses {
        add_loss(file, owners, there.as_slice(), *loss)?;
    }
    add_exits(file, owners, there.as_slice())
}

// The owners of the calls, each once.
fn owners_in(alloc: Global, calls: &[ClientCall]) -> Result<IndexSet<Owner>, AllocError> {
    let mut owners = IndexSet::new(alloc);
    for call in calls {
        owners.insert(call.owner)?;
    }
    Ok(owners)
}

// Appends the loss of each of these owners.
fn add_loss(
    file: &mut FileCalls,
    owners: &Owners,
    there: &[Owner],
    loss: Loss,
) -> Result<(), AllocError>
    ensures { OnOk result ((allowed : Rules) (lines : ℕ) → IsLoss allowed lines loss → Adds allowed owners.now.lives.items lines file.old file.new) }
{
    for owner in there {
        if let Some(call) = loss_of(owners, *owner, loss) {
            file.push(loss.line, &call)?;
        }
    }
    Ok(())
}

// Appends the exit of each of these owners that has one.
fn add_exits(file: &mut FileCalls, owners: &Owners, there: &[Owner]) -> Result<(), AllocError>
    ensures { OnOk result ((allowed : Rules) (lines : ℕ) → AreLives lines owners.now.lives.items → Adds allowed owners.now.lives.items lines file.old file.new) }
{
    for owner in there {
        if let Some(exit) = owners.exit_of(owner) {
            file.push(exit.line, &call_of(*owner, &exit))?;
        }
    }
    Ok(())
}

// The owner's loss as a call, unless the owner's exit had ended before it.
fn loss_of(owners: &Owners, owner: Owner, loss: Loss) -> Option<ClientCall>
    ensures { IfSome result (IsLossOf owners.now.lives.items loss) }
{
    let life = owners.life_of(&owner)?;
    if !may_begin(life.exit, loss.begin) {
        return None;
    }
    Some(ClientCall {
        owner,
        begin: loss.begin,
        end: Some(loss.end),
        act: Act::Drops,
        is_last: false,
        follows: None,
    })
}

// The owner's exit as a call about a file.
fn call_of(owner: Owner, exit: &Exit) -> ClientCall
    ensures { result ≡ record { owner = owner; begin = exit.now.begin; end = exit.now.end; act = Drops; is_last = true; follows = None } }
{
    ClientCall {
        owner,
        begin: exit.begin,
        end: exit.end,
        act: Act::Drops,
        is_last: true,
        follows: None,
    }
}
