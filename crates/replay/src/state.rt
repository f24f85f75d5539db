//! What the cluster of a journal holds behind an entry.
ghost use Rattle.std.specs.Prelude.{◌≡◌, ◌≢◌, ◌≤◌, false, true, length, string_bytes, IfErr, IfOk, ◌<◌, Ok, take, OnOk};
ghost use Rattle.command_line.specs.rule.Tasks.{state};
ghost use Rattle.replay.specs.declared.fault.Fault.TheVariants.{CannotWriteOutput};
ghost use Rattle.replay.specs.rule.Commands.{Does, IsFault, lack_text, position_of, HasEntry, IsStateBehind, IsStateTold, TellsState};
ghost use Rattle.cluster_core.specs.rule.Next.{next};
ghost use Rattle.cluster_core.specs.rule.Parts.{world_state};
ghost use Rattle.cluster_core.specs.rule.Runs.{Leads};
ghost use Rattle.cluster_core.specs.rule.World.{first_world, journal_limit, WorldState};

use crate::{Audited, Fault, Shown, Store, checked};
use cluster_core::{Journal, World, comes_next};
use messages::Entry;
use states::ClusterState;
use states::state_text::state_text;
use std::alloc::{AllocError, Global};
use std::fmt::Write;

// What the cluster of the journal of a file holds behind this entry, or behind the last, where that is one of a run.
pub(crate) fn state<'a, S: Store>(
    alloc: Global,
    store: &mut S,
    path: &'a str,
    at: Option<u32>,
) -> Result<Shown, Fault<'a>>
    ensures done { IfOk result (Does (S.holds store.old) (state path.now at) (S.holds store.new)) }
    ensures fault { IfErr result (λ fault. (fault ≢ CannotWriteOutput)
        × IsFault (S.holds store.old) (S.ran_short store.new) (S.refuses store.new) (state path.now at) (S.holds store.new) fault) }
{
    match checked(alloc, store, path)? {
        Audited::Run(journal) => match state_shown(alloc, &journal, at) {
            Ok(shown) => Ok(shown),
            Err(_) => Err(Fault::NoMemory),
        },
        Audited::Wrong(position) => Ok(Shown::No(position)),
    }
}

// What the cluster of the journal of a run holds, or that there is no such entry.
fn state_shown(alloc: Global, journal: &Journal, at: Option<u32>) -> Result<Shown, AllocError>
    ensures { IfOk result (IsStateTold journal.now at) }
{
    let _ = journal.entries(); // tells the proof that they are a run
    if !has_entry(journal, at) {
        return Ok(Shown::Wanting(lack_text(alloc, journal, at)?));
    }
    Ok(Shown::Text(told_text(alloc, journal, at)?))
}

// Whether the journal has the entry that is asked for.
fn has_entry(journal: &Journal, at: Option<u32>) -> bool
    ensures yes { result ≡ true → HasEntry journal.now at }
    ensures no { result ≡ false → HasEntry journal.now at → ⊥ }
{
    position_in(journal, at) <= journal.entries().len()
}

// The position behind which the state is told.
fn position_in(journal: &Journal, at: Option<u32>) -> usize
    ensures { result ≡ position_of journal.now at }
{
    match at {
        Some(position) => position as usize,
        None => journal.entries().len(),
    }
}

// That the journal has no such entry.
fn lack_text(alloc: Global, journal: &Journal, at: Option<u32>) -> Result<String, AllocError>
    ensures { IfOk result (λ text. string_bytes text ≡ lack_text (position_of journal.now at) (length journal.now.entries)) }
{
    lack_line(alloc, position_in(journal, at), journal.entries().len())
}

// The same of this position and the last one.
fn lack_line(alloc: Global, position: usize, last: usize) -> Result<String, AllocError>
    ensures { IfOk result (λ text. string_bytes text ≡ lack_text position last) }
{
    let mut text = String::new(alloc);
    writeln!(text, "no entry {position}, the last is {last}")?;
    Ok(text)
}

// The text of the state that is asked for.
fn told_text(alloc: Global, journal: &Journal, at: Option<u32>) -> Result<String, AllocError>
    requires { HasEntry journal.now at }
    ensures { IfOk result (λ text. TellsState journal.now at (string_bytes text)) }
{
    let position = position_in(journal, at);
    let told = state_behind(alloc, journal, position)?;
    let version = journal.shape().version();
    state_text(alloc, version, position as u64, &told)
}

// The state behind this position.
fn state_behind(
    alloc: Global,
    journal: &Journal,
    position: usize,
) -> Result<ClusterState, AllocError>
    ensures { IfOk result (IsStateBehind journal.now position) }
{
    let world = world_behind(alloc, journal, position)?;
    ClusterState::of(alloc, &world)
}

// The world to which so many entries of the journal lead, or all, if it has fewer. Their events happen once more.
pub(crate) fn world_behind(
    alloc: Global,
    journal: &Journal,
    count: usize,
) -> Result<World, AllocError>
    ensures { IfOk result (λ world. Leads (first_world journal.now.shape) (take count journal.now.entries) (world_state world)) }
{
    let mut world = World::new(alloc, journal.shape())?;
    for entry in up_to(journal.entries(), count as u64) {
        repeat(&mut world, alloc, entry)?;
    }
    Ok(world)
}

// The entries up to this position.
fn up_to(entries: &[Entry], to: u64) -> &[Entry]
    ensures { result.now ≡ take to entries.now }
{
    let count = to.min(entries.len() as u64) as usize;
    &entries[..count]
}

// The entry of a run, the next step of the world, happens again: only memory can be refused.
fn repeat(world: &mut World, alloc: Global, entry: &Entry) -> Result<(), AllocError>
    requires room { world.old.length < journal_limit }
    requires made { (v : WorldState) × (next (world_state world.old) entry.now.event ≡ Ok (v, entry.now)) }
    ensures { OnOk result (next (world_state world.old) entry.now.event ≡ Ok (world_state world.new, entry.now)) }
{
    if !comes_next(world, alloc, entry)? {
        unreachable!()
    }
    Ok(())
}
