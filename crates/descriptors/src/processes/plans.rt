//! The planned changes of the processes of a node.
ghost use Rattle.std.specs.Prelude.{◌≡◌, ◌≢◌, ◌<◌, false, None, Some, Ok, Err, IfOk, IfErr, MatchOption, is_none};
ghost use Rattle.model.specs.declared.reply.Reply.TheVariants.{Done, Fd};
ghost use Rattle.model.specs.rule.Limits.{IsNumber, most_processes, most_descriptors};
ghost use Rattle.model.specs.rule.Descriptors.{lowest_fd, lowest_description, after_spawn, after_fork, after_open, after_dup, after};
ghost use Rattle.descriptors.specs.code.Rows.{Refuses, begins, CanBegin};
ghost use Rattle.descriptors.specs.rule.Rows.{processes};
ghost use Rattle.descriptors.specs.code.Edits.{edited, Fits, HasPlace};

use super::{Processes, last_place};
use crate::edit::ProcessEdit;
use crate::error::ProcessError;
use crate::rows::{grown, is_running};
use model::{Access, MOST_DESCRIPTORS, Opened, ProcessCall, Reply};
use std::alloc::AllocError;

impl Processes {
    // The same processes with places up to the number `pid`, if there is no place for it yet.
    fn with_place(&self, pid: u16) -> Result<Option<Processes>, AllocError>
        ensures { IfOk result (HasPlace self.now pid) }
    {
        if (pid as usize) < self.rows.len() {
            return Ok(None);
        }
        let last = last_place(self.rows.len(), pid);
        let rows = grown(&self.rows, last)?;
        let counts = self.counts.grown(64 * (last + 1))?;
        Ok(Some(Processes { rows, counts }))
    }

    // The change that `spawn` would make.
    pub(super) fn plan_spawn(&self, pid: u16) -> Result<ProcessEdit, ProcessError>
        requires { IsNumber most_processes pid }
        ensures ok { IfOk result (λ edit. after_spawn (processes self.now) pid ≡ Ok (edited (processes self.now) edit, Done)) }
        ensures err { IfErr result (λ error. Refuses error (after_spawn (processes self.now) pid)) }
        ensures fits { IfOk result (λ edit. Fits self.now edit) }
    {
        if self.is_running(pid) {
            return Err(ProcessError::Exists);
        }
        let more = self.with_place(pid).map_err(|_| ProcessError::NoMemory)?;
        Ok(ProcessEdit::Begins { pid, more })
    }

    // The change that `fork` would make.
    pub(super) fn plan_fork(&self, pid: u16, child: u16) -> Result<ProcessEdit, ProcessError>
        requires { IsNumber most_processes child }
        ensures ok { IfOk result (λ edit. after_fork (processes self.now) pid child ≡ Ok (edited (processes self.now) edit, Done)) }
        ensures err { IfErr result (λ error. Refuses error (after_fork (processes self.now) pid child)) }
        ensures fits { IfOk result (λ edit. Fits self.now edit) }
    {
        if !self.is_running(pid) {
            return Err(ProcessError::NoProcess);
        }
        if self.is_running(child) {
            return Err(ProcessError::Exists);
        }
        let more = self.with_place(child).map_err(|_| ProcessError::NoMemory)?;
        Ok(ProcessEdit::Forks { pid, child, more })
    }

    fn is_free(&self, pid: u16, fd: u8) -> bool
        ensures { result ≡ is_none ((processes self.now).opened pid fd) }
    {
        self.opened(pid, fd).is_none()
    }

    // The lowest free descriptor of the process, if one is free.
    fn lowest_fd(&self, pid: u16) -> Option<u8>
        ensures { MatchOption result (lowest_fd (processes self.now) pid ≡ most_descriptors) (λ fd. (fd < most_descriptors) × (fd ≡ lowest_fd (processes self.now) pid)) }
    {
        for fd in 0..MOST_DESCRIPTORS {
            if self.is_free(pid, fd) {
                return Some(fd);
            }
        }
        None
    }

    // The lowest number, from 1, that no open description has.
    fn lowest_description(&self) -> u16
        ensures { result ≡ lowest_description (processes self.now) }
    {
        self.counts.lowest_unused()
    }

    // The change that `open` would make, with the descriptor that would be opened.
    pub(super) fn plan_open(
        &self,
        pid: u16,
        file: u16,
        access: Access,
    ) -> Result<(ProcessEdit, u8), ProcessError>
        ensures ok { IfOk result (λ planned. after_open (processes self.now) pid file access ≡ Ok (edited (processes self.now) planned.0, Fd planned.1)) }
        ensures err { IfErr result (λ error. Refuses error (after_open (processes self.now) pid file access)) }
        ensures memory { IfErr result (λ error. error ≢ ProcessError.NoMemory) }
        ensures fits { IfOk result (λ planned. Fits self.now planned.0) }
    {
        let _ = &self.rows; // tells the proof that a running process has a number in range
        if !self.is_running(pid) {
            return Err(ProcessError::NoProcess);
        }
        let Some(fd) = self.lowest_fd(pid) else {
            return Err(ProcessError::TooManyFiles);
        };
        let description = self.lowest_description();
        let opened = Opened {
            file,
            description,
            access,
        };
        Ok((ProcessEdit::Opens { pid, fd, opened }, fd))
    }

    // The change that `dup` would make, with the descriptor that would be opened.
    pub(super) fn plan_dup(&self, pid: u16, fd: u8) -> Result<(ProcessEdit, u8), ProcessError>
        ensures ok { IfOk result (λ planned. after_dup (processes self.now) pid fd ≡ Ok (edited (processes self.now) planned.0, Fd planned.1)) }
        ensures err { IfErr result (λ error. (error ≢ ProcessError.NoMemory) × Refuses error (after_dup (processes self.now) pid fd)) }
        ensures fits { IfOk result (λ planned. Fits self.now planned.0) }
    {
        let _ = &self.rows; // tells the proof that a running process has a number in range
        let found = self.resolve(pid, fd)?;
        let Some(lowest) = self.lowest_fd(pid) else {
            return Err(ProcessError::TooManyFiles);
        };
        let edit = ProcessEdit::Opens {
            pid,
            fd: lowest,
            opened: found,
        };
        Ok((edit, lowest))
    }

    /// The change that the call of the process would make, and its reply. Takes memory only where a
    /// process would begin.
    ///
    /// # Errors
    /// The errors of `spawn`, `fork`, `open` or `dup`, whichever the call is.
    pub fn plan(&self, pid: u16, call: ProcessCall) -> Result<(ProcessEdit, Reply), ProcessError>
        requires { CanBegin pid call }
        ensures ok { IfOk result (λ planned. after (processes self.now) pid call ≡ Ok (edited (processes self.now) planned.0, planned.1)) }
        ensures err { IfErr result (λ error. Refuses error (after (processes self.now) pid call)) }
        ensures memory { begins call ≡ false → IfErr result (λ error. error ≢ ProcessError.NoMemory) }
        ensures fits { IfOk result (λ planned. Fits self.now planned.0) }
    {
        match call {
            ProcessCall::Spawn => Ok((self.plan_spawn(pid)?, Reply::Done)),
            ProcessCall::Fork { child } => Ok((self.plan_fork(pid, child)?, Reply::Done)),
            ProcessCall::Open { file, access } => {
                let (edit, fd) = self.plan_open(pid, file, access)?;
                Ok((edit, Reply::Fd(fd)))
            }
            ProcessCall::Dup { fd } => {
                let (edit, made) = self.plan_dup(pid, fd)?;
                Ok((edit, Reply::Fd(made)))
            }
        }
    }
}
