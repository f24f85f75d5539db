//! The processes of one node, their descriptors, and the calls that change them.
ghost use Rattle.std.specs.Prelude.{◌≡◌, ◌≢◌, ◌≤◌, ◌<◌, ◌↔◌, true, false, None, Ok, Err, IfOk, IfErr, IfSome, OnOk, OnErr, IsTrue, length};
ghost use Rattle.model.specs.declared.reply.Reply.TheVariants.{Done, Fd};
ghost use Rattle.model.specs.rule.Limits.{IsNumber, most_processes, most_descriptors, most_descriptions};
ghost use Rattle.model.specs.rule.Descriptors.{no_processes, with_process, has_open, after_spawn, after_fork, after_open, after_dup};
ghost use Rattle.descriptors.specs.code.Rows.{resolved, Refuses, IsClosed};
ghost use Rattle.descriptors.specs.rule.Rows.{processes};

use crate::counts::{Counts, release};
use crate::error::{FdError, ProcessError};
use crate::process_entry::{ProcessEntry, is_of_file};
use crate::rows::{is_idle, is_running, opened_at, reset, same_rows};
use model::{Access, MOST_DESCRIPTORS, MOST_PROCESSES, Opened};
use std::alloc::{AllocError, Global};
use std::marker::Model;

mod changes;
mod plans;

// The number of the last place, where there were `places` of them and the process needs one more:
// half as many again as there were, so that places are seldom added, but none past the last process.
fn last_place(places: usize, pid: u16) -> usize
    ensures least { pid ≤ result }
    ensures number { result < 65536 }
{
    let most = MOST_PROCESSES as usize;
    let more = places.min(most) / 2 * 3;
    more.min(most).max(pid as usize)
}

/// The processes of one node in one incarnation, and what each of their descriptors refers to.
/// Processes are numbered from 1 to 256, descriptors from 0 to 63, open file descriptions from 1 to
/// 16,384. A call that errs leaves them as they were.
#[derive(Drop)]
pub struct Processes {
    // by the number of the process; there is no process 0
    rows: Vec<ProcessEntry>,
    // by the number of the description, with as many places as the rows have descriptors
    counts: Counts,
}

impl Model for Processes {
    ghost use Rattle.std.specs.Prelude.{◌≡◌, List, length};
    ghost use Rattle.descriptors.specs.declared.process_entry.ProcessEntry.{ProcessEntry};
    ghost use Rattle.descriptors.specs.code.Rows.{AreRows, AreCounts, places};
    ghost use Rattle.descriptors.specs.rule.Rows.{processes};

    ghost Value = { List ProcessEntry };

    ghost view = { λ p. p.rows.items };

    ghost invariant = { λ p. AreRows p.rows.items × (length p.counts ≡ places p.rows.items) × AreCounts (processes p.rows.items) p.counts };
}

impl Processes {
    /// The processes of a node on which none runs.
    #[tactic(auto, unfolding(crate::specs::rule::Rows::processes))]
    pub fn new(alloc: Global) -> Self
        ensures { processes result ≡ no_processes }
    {
        Processes {
            rows: Vec::new(alloc),
            counts: Counts::new(alloc),
        }
    }

    /// Whether the process runs. Takes no memory.
    pub fn is_running(&self, pid: u16) -> bool
        ensures { result ≡ (processes self.now).runs pid }
    {
        is_running(&self.rows, pid as usize)
    }

    fn opened(&self, pid: u16, fd: u8) -> Option<Opened>
        ensures value { result ≡ (processes self.now).opened pid fd }
        ensures number { IfSome result (λ opened. IsNumber most_descriptions opened.description) }
        ensures within { IfSome result (λ _. fd < most_descriptors) }
    {
        opened_at(&self.rows, pid as usize, fd)
    }

    /// What the descriptor of the process refers to.
    ///
    /// # Errors
    /// `NoProcess` where the process doesn't run, which is tested first; `BadFd` where it has no
    /// such descriptor.
    pub fn resolve(&self, pid: u16, fd: u8) -> Result<Opened, FdError>
        ensures value { result ≡ resolved (processes self.now) pid fd }
        ensures number { IfOk result (λ opened. IsNumber most_descriptions opened.description) }
        ensures within { OnOk result (fd < most_descriptors) }
    {
        if !self.is_running(pid) {
            return Err(FdError::NoProcess);
        }
        self.opened(pid, fd).ok_or(FdError::BadFd)
    }

    /// Whether the process has a descriptor of the file; a process that doesn't run has none. Takes
    /// no memory.
    pub fn has_open(&self, pid: u16, file: u16) -> bool
        ensures { result ≡ has_open (processes self.now) pid file }
    {
        for fd in 0..MOST_DESCRIPTORS {
            if is_of_file(file, self.opened(pid, fd)) {
                return true;
            }
        }
        false
    }

    /// Begins the process, without descriptors. Its number is from 1 to 256, as that of each
    /// process.
    ///
    /// # Errors
    /// `Exists` where the process runs already, which is tested before memory is requested;
    /// `NoMemory` where a request for memory was refused.
    pub fn spawn(&mut self, pid: u16) -> Result<(), ProcessError>
        requires { IsNumber most_processes pid }
        ensures ok { OnOk result (after_spawn (processes self.old) pid ≡ Ok (processes self.new, Done)) }
        ensures err { IfErr result (λ error. Refuses error (after_spawn (processes self.old) pid)) }
        ensures unchanged { OnErr result (self.new ≡ self.old) }
    {
        let edit = self.plan_spawn(pid)?;
        self.apply(edit);
        Ok(())
    }

    /// Begins the child with the descriptors of the process: each refers to the same description in
    /// both (POSIX.1-2017 `fork()`). The child's number is from 1 to 256.
    ///
    /// # Errors
    /// `NoProcess` where the process doesn't run, which is tested first; `Exists` where the child
    /// runs already; both are tested before memory is requested; `NoMemory` where a request for
    /// memory was refused.
    pub fn fork(&mut self, pid: u16, child: u16) -> Result<(), ProcessError>
        requires { IsNumber most_processes child }
        ensures ok { OnOk result (after_fork (processes self.old) pid child ≡ Ok (processes self.new, Done)) }
        ensures err { IfErr result (λ error. Refuses error (after_fork (processes self.old) pid child)) }
        ensures unchanged { OnErr result (self.new ≡ self.old) }
    {
        let edit = self.plan_fork(pid, child)?;
        self.apply(edit);
        Ok(())
    }

    /// Opens the file for the process: the lowest free descriptor, which is the result, gets to
    /// refer to a new description of the file, which takes the lowest number that no open
    /// description of the node has (POSIX.1-2017 `open()`). Takes no memory.
    ///
    /// # Errors
    /// `NoProcess` where the process doesn't run, which is tested first; `TooManyFiles` where it
    /// has 64 descriptors.
    pub fn open(&mut self, pid: u16, file: u16, access: Access) -> Result<u8, ProcessError>
        ensures ok { IfOk result (λ fd. after_open (processes self.old) pid file access ≡ Ok (processes self.new, Fd fd)) }
        ensures err { IfErr result (λ error. Refuses error (after_open (processes self.old) pid file access)) }
        ensures memory { IfErr result (λ error. error ≢ ProcessError.NoMemory) }
        ensures unchanged { OnErr result (self.new ≡ self.old) }
    {
        let (edit, fd) = self.plan_open(pid, file, access)?;
        self.apply(edit);
        Ok(fd)
    }

    /// Makes one more descriptor: the lowest free one, which is the result, gets to refer to the
    /// description that `fd` refers to (POSIX.1-2017 `dup()`). Takes no memory.
    ///
    /// # Errors
    /// In this order: `NoProcess` where the process doesn't run; `BadFd` where it has no such
    /// descriptor; `TooManyFiles` where it has 64.
    pub fn dup(&mut self, pid: u16, fd: u8) -> Result<u8, ProcessError>
        ensures ok { IfOk result (λ made. after_dup (processes self.old) pid fd ≡ Ok (processes self.new, Fd made)) }
        ensures err { IfErr result (λ error. (error ≢ ProcessError.NoMemory) × Refuses error (after_dup (processes self.old) pid fd)) }
        ensures unchanged { OnErr result (self.new ≡ self.old) }
    {
        let (edit, made) = self.plan_dup(pid, fd)?;
        self.apply(edit);
        Ok(made)
    }

    /// Closes the descriptor. The result is whether its description is closed with it: no
    /// descriptor of any process of the node refers to it any more (POSIX.1-2017 `close()`). Takes
    /// no memory.
    ///
    /// # Errors
    /// `NoProcess` where the process doesn't run, which is tested first; `BadFd` where it has no
    /// such descriptor (EBADF).
    pub fn close(&mut self, pid: u16, fd: u8) -> Result<bool, FdError>
        ensures ok { IfOk result (λ went. IsClosed (processes self.old) pid fd (processes self.new) went) }
        ensures err { IfErr result (λ error. resolved (processes self.old) pid fd ≡ Err error) }
        ensures unchanged { OnErr result (self.new ≡ self.old) }
    {
        let opened = self.resolve(pid, fd)?;
        Ok(self.free(pid, fd, opened))
    }

    /// Ends the process and frees its descriptors, whether it ran or not (POSIX.1-2017 `_Exit()`).
    /// Takes no memory.
    pub fn end(&mut self, pid: u16)
        ensures { processes self.new ≡ with_process (processes self.old) pid false (λ fd. None) }
    {
        if (pid as usize) < self.rows.len() {
            release(&mut self.counts, &self.rows, pid as usize);
            reset(&mut self.rows, pid as usize, false);
        }
    }

    /// Whether no process runs.
    pub fn is_idle(&self) -> bool
        ensures { IsTrue result ↔ (processes self.now ≡ no_processes) }
    {
        is_idle(&self.rows)
    }

    /// Equal processes.
    ///
    /// # Errors
    /// `AllocError` where a request for memory was refused.
    pub fn copy(&self) -> Result<Self, AllocError>
        ensures { IfOk result (λ copy. copy ≡ self.now) }
    {
        Ok(Processes {
            rows: Vec::from_slice(*self.rows.allocator(), &self.rows)?,
            counts: self.counts.copy()?,
        })
    }

    /// Whether the same processes run in both, with the same descriptors.
    pub fn same(&self, other: &Self) -> bool
        ensures { IsTrue result ↔ (processes self.now ≡ processes other.now) }
    {
        same_rows(&self.rows, &other.rows)
    }
}
