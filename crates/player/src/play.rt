//! Runs whole scripts, from the beginning or behind a journal.
ghost use Rattle.std.specs.Prelude.{◌≡◌, None, Some, IfErr, IfOk, OnOk};
ghost use Rattle.cluster_core.specs.rule.Histories.{HasOneHistory};
ghost use Rattle.cluster_core.specs.rule.Parts.{world_state};
ghost use Rattle.cluster_core.specs.rule.Runs.{Leads};
ghost use Rattle.cluster_core.specs.rule.Safe.{IsSafe};
ghost use Rattle.cluster_core.specs.rule.World.{first_world};
ghost use Rattle.messages.specs.declared.version.Version.TheVariants.{Second};
ghost use Rattle.lockscript.specs.declared.play_error.PlayError.TheVariants.{JournalFull};
ghost use Rattle.player.specs.code.Rounds.{progress, state_of, ComesOn, ComesToOne, FullComesToNothing, RoundsAreAboutFiles};
ghost use Rattle.player.specs.rule.Progress.{FillsBehind, FillsJournal, RunsTo};
ghost use Rattle.player.specs.rule.Rounds.{Comes, GoesBehind, cut_of};

use crate::player::{Played, Player};
use crate::rounds::Calm;
use cluster_core::Journal;
use lockscript::{PlayError, Script, ScriptLine};
use messages::{Refused, Shape};
use std::alloc::Global;

/// Runs the lines of a script in order. A line whose event is refused is listed, and the run goes
/// on, unless the journal is full or a request for memory was refused. Each line that is done is
/// reported to the watcher.
///
/// Where the run is to be calm, what is under way behind the lines is delivered, and rounds follow until no open call is
/// answered any more. Then no call is stuck: each open call of a live node about a file whose server works is a wait, and a
/// lock of another owner blocks it. Where an event of a round is refused, as when the journal is full, that cuts the rounds
/// off, and the refusal is given.
///
/// # Errors
/// `JournalFull` where the lines need more entries than a journal may have; `NoMemory` where a
/// request for memory was refused.
pub fn play<W: Watcher>(
    alloc: Global,
    script: Script,
    calm: bool,
    watcher: &mut W,
) -> Result<(Played, Option<Refused>), PlayError>
    // The result is what the lines come to, in order, and rounds behind them, if they are asked for. Unless an event of a
    // round is refused, no call is stuck then.
    ensures played { IfOk result (λ r. Comes calm script.shape script.lines (state_of r.0) r.1) }

    // One table explains each reply, and ends as what the nodes hold.
    ensures history { IfOk result (λ r. HasOneHistory script.shape r.0.journal.entries) }

    // At the end tokens of two nodes don't conflict, and tokens cover the locks.
    ensures safe { IfOk result (λ r. IsSafe (world_state r.0.world)) }

    // If the journal is full, some line needs an entry for which it has no room.
    ensures full { IfErr result (λ error. error ≡ JournalFull → FillsJournal script.shape script.lines) }
{
    let shape = script.shape();
    let player = Player::new(alloc, shape)?;
    play_lines(alloc, shape, player, script.into_lines(), calm, watcher)
}

/// Runs the lines of a script as `play` does, behind the run of a journal of the same shape, which
/// is of version 2. Messages are numbered on from those of the journal, which all count as settled.
/// The result has the whole run.
///
/// # Errors
/// The errors of `play`, in the same cases.
pub fn play_after<W: Watcher>(
    alloc: Global,
    script: Script,
    journal: Journal,
    calm: bool,
    watcher: &mut W,
) -> Result<(Played, Option<Refused>), PlayError>
    requires same_shape { script.shape ≡ journal.shape }
    requires new { journal.shape.version ≡ Second }

    // The result is what the lines come to, in order, behind the run of the journal, and rounds behind them.
    ensures played { IfOk result (λ r. GoesBehind calm journal script.lines (state_of r.0) r.1) }
    ensures history { IfOk result (λ r. HasOneHistory journal.shape r.0.journal.entries) }
    ensures safe { IfOk result (λ r. IsSafe (world_state r.0.world)) }
    ensures full { IfErr result (λ error. error ≡ JournalFull → FillsBehind journal script.lines) }
{
    let player = Player::after(alloc, journal)?;
    let shape = script.shape();
    play_lines(alloc, shape, player, script.into_lines(), calm, watcher)
}

// The memory of the lines is given back each time that many of them are done.
const LINES_AT_ONCE: usize = 16_384;

// Runs the lines in order, from where the player stands, in a cluster of this shape, and rounds behind them, if they are asked
// for. Lines that are done are dropped.
fn play_lines<W: Watcher>(
    alloc: Global,
    shape: Shape,
    mut player: Player,
    lines: Vec<ScriptLine>,
    calm: bool,
    watcher: &mut W,
) -> Result<(Played, Option<Refused>), PlayError>
    requires { Leads (first_world shape) (progress player).entries (progress player).world }
    ensures played { IfOk result (λ r. ComesOn calm shape (progress player) lines.items (state_of r.0) r.1) }
    ensures history { IfOk result (λ r. HasOneHistory shape r.0.journal.entries) }
    ensures safe { IfOk result (λ r. IsSafe (world_state r.0.world)) }
    ensures full { IfErr result (λ error. error ≡ JournalFull → RunsTo (progress player) lines.items None) }
{
    run_lines(alloc, &mut player, lines, watcher)?;
    if !calm {
        return Ok((player.finish(shape), None));
    }

    // The law that no call is stuck is one of shapes with these numbers of nodes and files.
    let _ = (shape.nodes(), shape.files());
    let end = player.calm(alloc, shape)?;
    Ok((player.finish(shape), refusal_of(end)))
}

// The refusal that cut rounds off, if one did.
fn refusal_of(end: Calm) -> Option<Refused>
    ensures { result ≡ cut_of end }
{
    match end {
        Calm::NoneOpen | Calm::Silent => None,
        Calm::Refused(refusal) => Some(refusal),
    }
}

// Runs the lines in order, from where the player stands. Lines that are done are dropped.
fn run_lines<W: Watcher>(
    alloc: Global,
    player: &mut Player,
    mut lines: Vec<ScriptLine>,
    watcher: &mut W,
) -> Result<(), PlayError>
    ensures ok { OnOk result (RunsTo (progress player.old) lines.items (Some (progress player.new))) }
    ensures full { IfErr result (λ error. error ≡ JournalFull → RunsTo (progress player.old) lines.items None) }
{
    watcher.begin("lines", Some(lines.len() as u64));
    lines.reverse();
    while let Some(line) = lines.pop() {
        player.take(alloc, &line)?;
        watcher.pass();
        if lines.len() % LINES_AT_ONCE == 0 {
            lines.shrink_to_fit();
        }
    }
    Ok(())
}

/// A receiver of reports on the progress of long work.
pub trait Watcher {
    /// Reports that work begins, in what parts it goes, and how many there are, where that is
    /// known.
    fn begin(&mut self, parts: &'static str, count: Option<u64>);

    /// Reports that one more part is done.
    fn pass(&mut self);

    /// Reports that the work is over, or given up.
    fn end(&mut self);
}

/// A script has one outcome at most, and none if it fills the journal. So the contract of `play`
/// leaves it no choice between an outcome and `JournalFull`, while there is memory.
pub fn a_script_comes_to_one_thing()
    ensures one { ComesToOne }
    ensures or_full { FullComesToNothing }
{}

/// A round behind a script is a round about each file whose server works, as `cluster_core` has it: so after two of them, of
/// which the second answers none, no call is stuck.
pub fn a_round_is_one_about_each_file()
    ensures { RoundsAreAboutFiles }
{}
