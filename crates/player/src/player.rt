//! Runs a script line by line.
ghost use Rattle.std.specs.Prelude.{◌≡◌, ◌+◌, ◌<◌, ◌≤◌, true, false, Err, Some, None, IfErr, IfOk, OnOk};
ghost use Rattle.cluster_core.specs.rule.Histories.{HasOneHistory};
ghost use Rattle.cluster_core.specs.rule.Parts.{world_state};
ghost use Rattle.cluster_core.specs.rule.Runs.{Leads};
ghost use Rattle.cluster_core.specs.rule.Safe.{IsSafe};
ghost use Rattle.cluster_core.specs.rule.World.{first_world};
ghost use Rattle.messages.specs.declared.message.Message.{Message};
ghost use Rattle.lockscript.specs.declared.play_error.PlayError.TheVariants.{NoMemory, JournalFull};
ghost use Rattle.player.specs.code.Rounds.{progress, state_of, GoesCalm, GoesQuietly, Stops, StopsAtSent};
ghost use Rattle.player.specs.rule.Progress.{played_of, EndsIn, first_progress, progress_after, Delivers, Does, Ends, Happens, IsNextMessage, IsSettled, Settles};

use crate::rounds::{Calm, deliver, rounds};
use crate::settled::Settled;
use cluster_core::{Journal, Run, World};
use lockscript::{PlayError, RefusedLine, ScriptCommand, ScriptLine};
use messages::{Event, MemberEvent, NodeInput, Refused, ServerInput, Shape};
use std::alloc::Global;
use std::marker::Model;

/// A script that is run so far: the world, the entries that led to it, the messages that are
/// settled (delivered, lost or passed over), and the lines that were refused.
#[derive(Drop)]
pub struct Player {
    run: Run,
    settled: Settled,
    refused: Vec<RefusedLine>,
}

impl Model for Player {
    ghost use Rattle.player.specs.code.Rounds.{PlayerParts};

    ghost Value = { PlayerParts };

    ghost view = { λ p. record { run = p.run; settled = p.settled; refused = p.refused.items } };
}

impl Player {
    /// The player of a cluster of this shape that begins, before any line.
    ///
    /// # Errors
    /// `NoMemory` where a request for memory was refused.
    pub fn new(alloc: Global, shape: Shape) -> Result<Player, PlayError>
        ensures first { IfOk result (λ player. progress player ≡ first_progress shape) }
        ensures err { IfErr result (λ error. error ≡ NoMemory) }
    {
        Ok(Player {
            run: Run::new(alloc, shape)?,
            settled: Settled::new(alloc),
            refused: Vec::new(alloc),
        })
    }

    /// The player behind the run of a journal, before any line: all messages of the journal are
    /// settled.
    ///
    /// # Errors
    /// `NoMemory` where a request for memory was refused.
    pub fn after(alloc: Global, journal: Journal) -> Result<Player, PlayError>
        ensures leads { IfOk result (λ player. Leads (first_world journal.shape) journal.entries (world_state player.run.world)) }
        ensures begins { IfOk result (λ player. progress player ≡ progress_after journal.entries (world_state player.run.world)) }
        ensures err { IfErr result (λ error. error ≡ NoMemory) }
    {
        let run = Run::after(alloc, journal)?;
        let sent = run.world().sent().len();
        Ok(Player {
            run,
            settled: Settled::first(alloc, sent),
            refused: Vec::new(alloc),
        })
    }

    /// The run so far: its entries, and the world to which they led.
    pub fn run(&self) -> &Run
        ensures { result.now ≡ self.now.run }
    {
        &self.run
    }

    /// The lines that were refused so far in order, each by its number with the number of its
    /// refusal.
    pub fn refused(&self) -> &[RefusedLine]
        ensures { result.now ≡ self.now.refused }
    {
        self.refused.as_slice()
    }

    /// Runs a line. A line whose event is refused is listed, unless the journal is full or a
    /// request for memory was refused. After an error the player may stand in the middle of the
    /// line, and can't be used any more.
    ///
    /// # Errors
    /// `JournalFull` where the line needs more entries than a journal may have; `NoMemory` where a
    /// request for memory was refused.
    pub fn take(&mut self, alloc: Global, line: &ScriptLine) -> Result<(), PlayError>
        ensures ok { OnOk result (Does line.now.number line.now.command (progress self.old) (Some (progress self.new))) }
        ensures full { IfErr result (λ error. error ≡ JournalFull → Does line.now.number line.now.command (progress self.old) None) }
    {
        self.carry_out(alloc, line.number(), line.command())
    }

    /// Runs a line with this number and this command, as `take` does.
    ///
    /// # Errors
    /// The errors of `take`, in the same cases.
    pub fn carry_out(
        &mut self,
        alloc: Global,
        number: u32,
        command: ScriptCommand,
    ) -> Result<(), PlayError>
        ensures ok { OnOk result (Does number command (progress self.old) (Some (progress self.new))) }
        ensures full { IfErr result (λ error. error ≡ JournalFull → Does number command (progress self.old) None) }
    {
        match command {
            ScriptCommand::Call { node, pid, op } => {
                let input = NodeInput::Call { pid, op };
                self.step(alloc, number, Event::AtNode(node, input))
            }
            ScriptCommand::Deliver { message } => self.deliver(alloc, number, message),
            ScriptCommand::Lose { message } => self.lose(number, message),
            ScriptCommand::Settle => self.settle(alloc, number),
            ScriptCommand::Interrupt { node, pid } => {
                let input = NodeInput::Interrupt { pid };
                self.step(alloc, number, Event::AtNode(node, input))
            }
            ScriptCommand::Retry { node, pid } => {
                self.step(alloc, number, Event::AtNode(node, NodeInput::Retry { pid }))
            }
            ScriptCommand::Resend { file } => {
                self.step(alloc, number, Event::AtServer(file, ServerInput::Resend))
            }
            ScriptCommand::Declare { node } => {
                self.step(alloc, number, Event::Member(MemberEvent::Declare { node }))
            }
            ScriptCommand::Restart { node } => {
                self.step(alloc, number, Event::Member(MemberEvent::Restart { node }))
            }
            ScriptCommand::Learn {
                file,
                node,
                incarnation,
            } => {
                let input = ServerInput::Learn { node, incarnation };
                self.step(alloc, number, Event::AtServer(file, input))
            }
            ScriptCommand::FailServer { file } => {
                let event = MemberEvent::FailServer { file };
                self.step(alloc, number, Event::Member(event))
            }
            ScriptCommand::StartServer { file } => {
                let event = MemberEvent::StartServer { file };
                self.step(alloc, number, Event::Member(event))
            }
        }
    }

    // Lets one event of a line happen. If the event is refused the world stays as it was, and the
    // line is listed.
    fn step(&mut self, alloc: Global, line: u32, event: Event) -> Result<(), PlayError>
        ensures ok { OnOk result (Happens line event (progress self.old) (Some (progress self.new))) }
        ensures full { IfErr result (λ error. error ≡ JournalFull → Happens line event (progress self.old) None) }
        ensures rests { OnOk result (self.new.settled ≡ self.old.settled) }
    {
        match self.run.take(alloc, event) {
            Ok(()) => Ok(()),
            Err(refusal) => self.refuse(line, refusal),
        }
    }

    // Lists a line with its refusal, unless the refusal ends the run.
    fn refuse(&mut self, line: u32, refusal: Refused) -> Result<(), PlayError>
        ensures ok { OnOk result (Ends line (progress self.old) (Err refusal) (Some (progress self.new))) }
        ensures full { IfErr result (λ error. error ≡ JournalFull → refusal ≡ Refused.JournalFull) }
        ensures rests { OnOk result (self.new.settled ≡ self.old.settled) }
    {
        let code = match refusal {
            Refused::NoMemory => return Err(PlayError::NoMemory),
            Refused::JournalFull => return Err(PlayError::JournalFull),
            listed => listed.number(),
        };
        match self.refused.push(RefusedLine { line, code }) {
            Ok(()) => Ok(()),
            Err(_) => Err(PlayError::NoMemory),
        }
    }

    // Delivers the message with this number, which is settled then, unless its delivery is refused.
    fn deliver(&mut self, alloc: Global, line: u32, number: u32) -> Result<(), PlayError>
        ensures ok { OnOk result (Does line (ScriptCommand.Deliver number) (progress self.old) (Some (progress self.new))) }
        ensures full { IfErr result (λ error. error ≡ JournalFull → Does line (ScriptCommand.Deliver number) (progress self.old) None) }
    {
        let index = (number as usize).saturating_sub(1);
        match self.run.deliver(alloc, index) {
            Ok(()) => self.settled.settle(index)?,
            Err(refusal) => self.refuse(line, refusal)?,
        }
        Ok(())
    }

    // Loses the message with this number: it is settled, and no event happens.
    fn lose(&mut self, line: u32, number: u32) -> Result<(), PlayError>
        ensures ok { OnOk result (Does line (ScriptCommand.Lose number) (progress self.old) (Some (progress self.new))) }
        ensures err { IfErr result (λ error. error ≡ NoMemory) }
    {
        let index = (number as usize).saturating_sub(1);
        if index < self.run.world().sent().len() {
            self.settled.settle(index)?;
        } else {
            self.refuse(line, Refused::Stranger)?;
        }
        Ok(())
    }

    // Moves the cursor to the earliest message that isn't settled. The result is whether there is
    // one.
    #[tactic(auto, using(crate::proofs::Progresses::next_there))]
    fn has_next(&mut self) -> bool
        ensures same { progress self.new ≡ progress self.old }
        ensures run { self.new.run ≡ self.old.run }
        ensures refused { self.new.refused ≡ self.old.refused }
        ensures next { result ≡ true → (m : Message) × IsNextMessage (progress self.new) self.new.settled.cursor m }
        ensures settled { result ≡ false → IsSettled (progress self.new) }
        ensures room { result ≡ true → self.new.settled.cursor < usize.MAX }
        ensures rises { self.old.settled.cursor ≤ self.new.settled.cursor }
    {
        self.settled.advance();
        self.settled.cursor() < self.run.world().sent().len()
    }

    // Settles the message at the cursor: delivers it, or passes over it if its delivery is refused.
    // The refusal is listed, unless the message's node or server was declared failed.
    fn deliver_next(&mut self, alloc: Global, line: u32) -> Result<(), PlayError>
        requires next_one { (m : Message) × IsNextMessage (progress self.old) self.old.settled.cursor m }
        requires room { self.old.settled.cursor < usize.MAX }
        ensures ok { OnOk result ((m : Message) × Delivers line m (progress self.old) (Some (progress self.new))) }
        ensures full { IfErr result (λ error. error ≡ JournalFull → (m : Message) × Delivers line m (progress self.old) None) }
        ensures rises { OnOk result (self.new.settled.cursor ≡ self.old.settled.cursor + 1) }
    {
        let index = self.settled.cursor();
        self.settled.pass();
        match self.run.deliver(alloc, index) {
            Ok(()) => {}
            Err(Refused::Fenced) => {}
            Err(refusal) => self.refuse(line, refusal)?,
        }
        Ok(())
    }

    // Settles messages in the order in which they were sent, also ones that are sent meanwhile,
    // until none is left.
    fn settle(&mut self, alloc: Global, line: u32) -> Result<(), PlayError>
        ensures ok { OnOk result (Settles line (progress self.old) (Some (progress self.new))) }
        ensures full { IfErr result (λ error. error ≡ JournalFull → Settles line (progress self.old) None) }
    {
        while self.has_next() {
            self.deliver_next(alloc, line)?;
        }
        Ok(())
    }

    /// The outcome of all lines, on a cluster of this shape.
    pub(crate) fn finish(self, shape: Shape) -> Played
        requires { Leads (first_world shape) self.run.entries (progress self).world }
        ensures value { state_of result ≡ played_of shape (progress self) }
        ensures history { HasOneHistory shape result.journal.entries }
        ensures safe { IsSafe (world_state result.world) }
    {
        let (journal, world) = self.run.into_journal();
        Played::new(journal, world, self.refused)
    }

    /// Goes on behind the lines, on a cluster of this shape: what is under way is delivered, and then rounds follow until no
    /// open call is answered any more. Gives how they end. Nothing is listed as refused.
    ///
    /// # Errors
    /// `NoMemory` where a request for memory was refused.
    pub(crate) fn calm(&mut self, alloc: Global, shape: Shape) -> Result<Calm, PlayError>
        requires { self.old.run.world.shape ≡ shape }
        ensures calm { IfOk result (GoesCalm self.old.run self.new.run) }
        ensures refused { self.new.refused ≡ self.old.refused }
        ensures err { IfErr result (λ error. error ≡ NoMemory) }
    {
        match self.go_round(alloc, shape) {
            Ok(end) => Ok(end),
            Err(Refused::NoMemory) => Err(PlayError::NoMemory),
            Err(refusal) => Ok(Calm::Refused(refusal)),
        }
    }

    // The same, up to the first event that is refused.
    fn go_round(&mut self, alloc: Global, shape: Shape) -> Result<Calm, Refused>
        requires { self.old.run.world.shape ≡ shape }
        ensures goes { GoesQuietly self.old.run self.new.run }
        ensures calm { IfOk result (GoesCalm self.old.run self.new.run) }
        ensures stops { IfErr result (Stops self.old.run self.new.run) }
        ensures refused { self.new.refused ≡ self.old.refused }
    {
        self.deliver_rest(alloc)?;
        rounds(&mut self.run, alloc, shape)
    }

    // Delivers the messages that aren't settled, in the order in which they were sent, also ones that are sent meanwhile.
    fn deliver_rest(&mut self, alloc: Global) -> Result<(), Refused>
        ensures goes { GoesQuietly self.old.run self.new.run }
        ensures stops { IfErr result (StopsAtSent self.new.run) }
        ensures refused { self.new.refused ≡ self.old.refused }
    {
        while self.has_next() {
            let place = self.settled.cursor();
            self.settled.pass();
            deliver(&mut self.run, alloc, place)?;
        }
        Ok(())
    }
}

/// The outcome of a script: the journal of its run; the world to which the journal's entries lead;
/// and the refused lines in order, each by its number, from 1, with the number of its refusal.
#[derive(Drop)]
pub struct Played {
    journal: Journal,
    world: World,
    refused: Vec<RefusedLine>,
}

impl Model for Played {
    ghost use Rattle.cluster_core.specs.rule.Parts.{world_state};
    ghost use Rattle.player.specs.code.Rounds.{PlayedParts};
    ghost use Rattle.player.specs.rule.Progress.{EndsIn};

    ghost Value = { PlayedParts };

    ghost view = { λ p. record { journal = p.journal; world = p.world; refused = p.refused.items } };

    ghost invariant = { λ p. EndsIn p.journal (world_state p.world) };
}

impl Played {
    pub(crate) fn new(journal: Journal, world: World, refused: Vec<RefusedLine>) -> Played
        requires { EndsIn journal (world_state world) }
        ensures { result ≡ record { journal = journal; world = world; refused = refused.items } }
    {
        Played {
            journal,
            world,
            refused,
        }
    }

    /// The journal of the run.
    pub fn journal(&self) -> &Journal
        ensures { result.now ≡ self.now.journal }
    {
        &self.journal
    }

    /// The refused lines in order, each by its number, from 1, with the number of its refusal.
    pub fn refused(&self) -> &[RefusedLine]
        ensures { result.now ≡ self.now.refused }
    {
        self.refused.as_slice()
    }

    /// The journal of the run, the world at its end, and the refused lines.
    pub fn into_parts(self) -> (Journal, World, Vec<RefusedLine>)
        ensures journal { result.0 ≡ self.journal }
        ensures world { result.1 ≡ self.world }
        ensures refused { result.2.items ≡ self.refused }
        ensures ends { EndsIn self.journal (world_state self.world) }
    {
        let Played {
            journal,
            world,
            refused,
        } = self;
        (journal, world, refused)
    }
}
