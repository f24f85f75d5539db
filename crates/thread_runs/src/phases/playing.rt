//! The play of phases by threads.
use super::Phases;
use crate::{CallQueue, LineOutcome, NextCall, RunWatcher, Stage};
use actors::{CallError, Client, Gate};
use book::Name;
use lockscript::{PlayError, ScriptCommand};
use model::Op;
use std::sync::atomic::AtomicU64;
use std::sync::{Mutex, Wait};
use std::thread::{Scope, Threads};
use std::time::Clock;
use std::{mem, thread};

impl<'a, 'b, J: Name + Send + Sync, G: Gate + Sync> Phases<'a, 'b, J, G> {
    /// Ends the phase: makes the calls of each part on a thread of its own, and waits for all. Where one stops before
    /// its end, or has no thread, the cluster ends, so that the others don't wait for it. If the manner allows, the
    /// cluster ends as well where the parts are stuck.
    ///
    /// # Errors
    /// As `take`.
    pub(crate) fn join<R: Threads + Wait + Clock + Sync, V: RunWatcher>(
        &mut self,
        rt: &R,
        watcher: &mut V,
    ) -> Result<(), PlayError> {
        if self.is_over {
            return Ok(());
        }
        let parts = mem::replace(&mut self.parts, Vec::new(self.alloc));
        let played = self.play_all(rt, parts.as_slice(), watcher);
        self.places.clear();
        for part in parts {
            self.end(part)?;
        }
        played?;
        if self.cluster.is_short() {
            return Err(PlayError::NoMemory);
        }
        Ok(())
    }

    // Plays the parts of the phase on threads, which have ended when it returns.
    fn play_all<R: Threads + Wait + Clock + Sync, V: RunWatcher>(
        &mut self,
        rt: &R,
        parts: &[Mutex<CallQueue<'a, J, G>>],
        watcher: &mut V,
    ) -> Result<(), PlayError> {
        let cluster = self.cluster;
        let playing = AtomicU64::new(0);
        let playing = &playing;
        thread::scope(thread::scope_env(), rt, |scope| {
            let stage = Stage {
                rt,
                cluster,
                parts,
                playing,
            };
            let played = self.play_on(scope, &stage, watcher);
            if played.is_err() {
                cluster.stop();
            }
            played
        })
    }

    // Makes the lines of the phase in order. A line that is no call is made when no call before it can be answered
    // without it. At the end waits until all calls are answered or stuck, if being stuck ends the run; until all are
    // answered, if somebody watches the run; else not at all.
    fn play_on<'s, E, R: Threads + Wait + Clock + Sync, V: RunWatcher>(
        &mut self,
        scope: &Scope<'s, E>,
        stage: &Stage<'s, 'a, J, G, R>,
        watcher: &mut V,
    ) -> Result<(), PlayError> {
        for index in self.first..self.lines.len() {
            let Some(played) = self.lines.get(index) else {
                break;
            };
            let command = played.line.command();
            if let ScriptCommand::Call { node, pid, op } = command {
                self.queue(stage, index, node, pid, op)?;
                continue;
            }
            stage.start(scope)?;
            stage.wait(true, self.failed.as_slice(), watcher);
            self.make(stage.rt, index, command, stage.parts)?;
        }
        stage.start(scope)?;
        let may_stop = self.manner.may_stop;
        let waits = may_stop || watcher.is_watched();
        if waits && stage.wait(may_stop, self.failed.as_slice(), watcher) {
            self.cluster.stop();
        }
        Ok(())
    }

    // Adds the call of the line at the index to the part of its process. The call is refused where the process can
    // have no client.
    fn queue<R: Wait>(
        &mut self,
        stage: &Stage<'_, 'a, J, G, R>,
        index: usize,
        node: u8,
        pid: u16,
        op: Op,
    ) -> Result<(), PlayError> {
        let Some(part) = self.part_of(stage.parts, node, pid) else {
            return Ok(());
        };
        let client = if part.lock(stage.rt).needs_client {
            match self.client(stage.rt, node, pid) {
                Ok(client) => Some(client),
                Err(CallError::NoMemory) => return Err(PlayError::NoMemory),
                Err(why) => {
                    self.note(index, LineOutcome::Denied(why));
                    return Ok(());
                }
            }
        } else {
            None
        };
        part.lock(stage.rt).add(NextCall { index, op, client })?;
        Ok(())
    }

    // The part of the process in the phase, if it has one.
    fn part_of<'p>(
        &self,
        parts: &'p [Mutex<CallQueue<'a, J, G>>],
        node: u8,
        pid: u16,
    ) -> Option<&'p Mutex<CallQueue<'a, J, G>>> {
        parts.get(*self.places.get(&(node, pid))?)
    }

    // Keeps the client of a process that makes no call now.
    fn keep(&mut self, client: Client<'a, J, G>) -> Result<(), PlayError> {
        let process = client.process();
        match self.idle.insert((process.node, process.pid), client) {
            Ok(_) => Ok(()),
            Err(_) => Err(PlayError::NoMemory),
        }
    }

    // Notes the outcomes of a part that was played, and keeps its client.
    fn end(&mut self, part: Mutex<CallQueue<'a, J, G>>) -> Result<(), PlayError> {
        let (outcomes, client) = part.into_inner().into_outcomes()?;
        for (index, outcome) in outcomes.iter() {
            self.note(*index, *outcome);
            self.see(outcome);
            self.is_over = self.is_over || outcome.is_open();
        }
        if let Some(client) = client {
            self.keep(client)?;
        }
        Ok(())
    }

    // Keeps the receipt of a call, if its reply stands behind that of the last one kept.
    fn see(&mut self, outcome: &LineOutcome) {
        let Some(receipt) = outcome.receipt() else {
            return;
        };
        match &self.last {
            Some(last) if last.reply_at() >= receipt.reply_at() => {}
            _ => self.last = Some(receipt),
        }
    }
}
