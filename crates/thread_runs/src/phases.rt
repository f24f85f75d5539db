//! The phases of a script, run one after the other on a cluster.
use crate::{CallQueue, LineOutcome, Manner, PlayedLine, RunWatcher};
use actors::{CallError, Client, Cluster, Gate};
use book::{Name, Receipt};
use lockscript::{PlayError, ScriptCommand, ScriptLine};
use messages::Refused;
use std::alloc::Global;
use std::collections::BTreeMap;
use std::sync::{Mutex, Wait};
use std::thread::Threads;
use std::time::Clock;

mod playing;

/// The phases of a script on a cluster. It knows how the script is run and whether the run was ended as stuck; the
/// lines so far with their outcomes, and the index of the first line of the phase; the parts of the phase, and the
/// place of each process's part; the clients, by process, that make no call in it; the last receipt of earlier
/// phases; and the files whose token servers are declared failed.
#[derive(Drop)]
pub(crate) struct Phases<'a, 'b, J: Name, G: Gate> {
    alloc: Global,
    cluster: &'b Cluster<'a, J, G>,
    manner: Manner,
    is_over: bool,
    lines: Vec<PlayedLine>,
    first: usize,
    parts: Vec<Mutex<CallQueue<'a, J, G>>>,
    places: BTreeMap<(u8, u16), usize>,
    idle: BTreeMap<(u8, u16), Client<'a, J, G>>,
    last: Option<Receipt>,
    failed: Vec<u16>,
}

impl<'a, 'b, J: Name + Send + Sync, G: Gate + Sync> Phases<'a, 'b, J, G> {
    /// The phases before any line was taken.
    pub(crate) fn new(cluster: &'b Cluster<'a, J, G>, manner: Manner) -> Phases<'a, 'b, J, G> {
        let alloc = cluster.alloc();
        Phases {
            alloc,
            cluster,
            manner,
            is_over: false,
            lines: Vec::new(alloc),
            first: 0,
            parts: Vec::new(alloc),
            places: BTreeMap::new(alloc),
            idle: BTreeMap::new(alloc),
            last: None,
            failed: Vec::new(alloc),
        }
    }

    /// Takes a line. A line that separates phases ends the phase and is made; any other goes into the phase. After
    /// the run was ended as stuck, each line is left. The watcher is told meanwhile how far the run is.
    ///
    /// # Errors
    /// `NoMemory` where a request for memory or for a thread was refused; `JournalFull` where the run needs more
    /// entries than a journal may have.
    pub(crate) fn take<R: Threads + Wait + Clock + Sync, V: RunWatcher>(
        &mut self,
        rt: &R,
        line: &ScriptLine,
        watcher: &mut V,
    ) -> Result<(), PlayError> {
        let played = PlayedLine::new(*line);
        let parts = played.parts(self.manner.no_join);
        if parts {
            self.join(rt, watcher)?;
        }
        let index = self.lines.len();
        if self.lines.push(played).is_err() {
            return Err(PlayError::NoMemory);
        }
        if self.is_over {
            return Ok(());
        }
        if !parts {
            return self.add(line.command());
        }
        self.make(rt, index, line.command(), &[])?;
        self.first = self.lines.len();
        Ok(())
    }

    // Adds a part for the process of a line in the phase, if it has none.
    fn add(&mut self, command: ScriptCommand) -> Result<(), PlayError> {
        let ScriptCommand::Call { node, pid, .. } = command else {
            return Ok(());
        };
        if self.places.contains_key(&(node, pid)) {
            return Ok(());
        }
        if self.places.insert((node, pid), self.parts.len()).is_err() {
            return Err(PlayError::NoMemory);
        }
        match self
            .parts
            .push(Mutex::new(CallQueue::new(self.alloc, node)))
        {
            Ok(()) => Ok(()),
            Err(_) => Err(PlayError::NoMemory),
        }
    }

    // Notes the outcome of the line at the index.
    fn note(&mut self, index: usize, outcome: LineOutcome) {
        if let Some(line) = self.lines.get_mut(index) {
            line.outcome = outcome;
        }
    }

    // Makes the line at the index, which is no call, beside these parts. Notes its outcome.
    fn make<R: Wait>(
        &mut self,
        rt: &R,
        index: usize,
        command: ScriptCommand,
        parts: &[Mutex<CallQueue<'a, J, G>>],
    ) -> Result<(), PlayError> {
        let outcome = self.change(rt, command, parts)?;
        self.note(index, outcome);
        Ok(())
    }

    // Makes the failure or start of a line that is no call.
    fn change<R: Wait>(
        &mut self,
        rt: &R,
        command: ScriptCommand,
        parts: &[Mutex<CallQueue<'a, J, G>>],
    ) -> Result<LineOutcome, PlayError> {
        let made = match command {
            ScriptCommand::Declare { node } => self.declare(rt, node),
            ScriptCommand::Restart { node } => self.restart(rt, node, parts),
            ScriptCommand::FailServer { file } => self.fail_server(rt, file),
            ScriptCommand::StartServer { file } => self.start_server(rt, file),
            _ => return Ok(LineOutcome::Settled),
        };
        match made {
            Ok(position) => Ok(LineOutcome::Made(position)),
            Err(Refused::NoMemory) => Err(PlayError::NoMemory),
            Err(Refused::JournalFull) => Err(PlayError::JournalFull),
            Err(why) => Ok(LineOutcome::Refused(why)),
        }
    }

    // Declares the node failed. Gives the position of the entry.
    fn declare<R: Wait>(&self, rt: &R, node: u8) -> Result<u32, Refused> {
        let stamp = self.cluster.declare(rt, node)?;
        Ok(stamp.position())
    }

    // Declares the token server of the file failed. Gives the position of the entry.
    fn fail_server<R: Wait>(&mut self, rt: &R, file: u16) -> Result<u32, Refused> {
        self.failed.reserve(1)?;
        let stamp = self.cluster.fail_server(rt, file)?;
        self.failed.push_reserved(file);
        Ok(stamp.position())
    }

    // Starts the token server of the file again. Gives the position of the entry.
    fn start_server<R: Wait>(&mut self, rt: &R, file: u16) -> Result<u32, Refused> {
        let position = self.cluster.start_server(rt, file)?;
        self.failed.retain(|failed| *failed != file);
        Ok(position)
    }

    // Restarts the node, whose clients are gone. Gives the position of the entry.
    fn restart<R: Wait>(
        &mut self,
        rt: &R,
        node: u8,
        parts: &[Mutex<CallQueue<'a, J, G>>],
    ) -> Result<u32, Refused> {
        let position = self.cluster.restart(rt, node)?;
        self.idle.retain(|process, _| process.0 != node);
        for part in parts {
            part.lock(rt).learn_restart(node);
        }
        Ok(position)
    }

    // The client of the process, which has seen all earlier phases: the one that waits, or else a new one.
    fn client<R: Wait>(
        &mut self,
        rt: &R,
        node: u8,
        pid: u16,
    ) -> Result<Client<'a, J, G>, CallError> {
        let mut client = match self.idle.remove(&(node, pid)) {
            Some(client) => client,
            None => self.cluster.client(rt, node, pid)?,
        };
        if let Some(receipt) = &self.last {
            client.told(receipt);
        }
        Ok(client)
    }

    /// The lines with their outcomes.
    pub(crate) fn into_lines(self) -> Vec<PlayedLine> {
        self.lines
    }
}
