//! The one table of a single machine, and the calls that plan and make its changes.
ghost use Rattle.std.specs.Prelude.{◌≡◌, ◌<◌, false, IfOk, IsOk, IsTrue, ◌↔◌, OnOk, OnErr, MatchOption, MatchResult, Result, Ok, Err};
ghost use Rattle.model.specs.rule.Locks.{IsRegion, IsLowestBlocker};
ghost use Rattle.model.specs.rule.Descriptors.{Processes, after};
ghost use Rattle.model.specs.declared.reply.Reply.{Reply};
ghost use Rattle.model.specs.rule.Table.{empty_table, around, beside, target, call_target, regions_with, lock_within, after_close, after_exit};
ghost use Rattle.model.specs.rule.Step.{Is, Unblocked};
ghost use Rattle.descriptors.specs.code.Rows.{Refuses, begins, CanBegin};
ghost use Rattle.fcntl_table.specs.declared.edit.TableEdit.TheVariants.{Nothing};
ghost use Rattle.fcntl_table.specs.rule.Tables.{IsOwn, IsSpan, table_of, Keeps};
ghost use Rattle.fcntl_table.specs.code.Edits.{edited, Fits};

use crate::edit::{Planned, TableEdit};
use crate::hosts::Hosts;
use crate::target::target_at;
use descriptors::error::ProcessError;
use intervals::span::Span;
use lock_table::lock_table::LockTable;
use model::{Host, Kind, LockCall, LockInfo, LockTarget, Mode, Process, ProcessCall, Reply};
use std::alloc::{AllocError, Global};

mod exits;
mod plans;

/// The table that a single machine's `fcntl()` keeps: the processes of hosts (a host is a node in
/// one of its incarnations), what each of their descriptors refers to, and the locks of each file.
/// A call is planned on the table as it is, and then made by `apply`, which takes no memory. A call
/// that errs leaves the table as it was.
#[derive(Drop)]
pub struct FcntlTable {
    hosts: Hosts,
    locks: LockTable,
}

// The host of a process.
fn host_of(process: Process) -> Host
    ensures { result ≡ record { node = process.node; incarnation = process.incarnation } }
{
    Host {
        node: process.node,
        incarnation: process.incarnation,
    }
}

// The outcome of a call that is refused for this reason.
fn refused(error: ProcessError) -> Result<Planned, AllocError>
    ensures { MatchResult result (λ planned. (planned.edit ≡ Nothing) × ((answer : Result (Processes × Reply) Reply) → Refuses error answer → answer ≡ Err planned.reply)) (λ _. error ≡ ProcessError.NoMemory) }
{
    Ok(Planned {
        edit: TableEdit::Nothing,
        reply: error.reply()?,
    })
}

impl FcntlTable {
    /// The table in which no process runs, nothing is open and no byte is locked; an owner may have
    /// `limit` regions in a file.
    pub fn new(alloc: Global, limit: usize) -> Self
        ensures { table_of result ≡ empty_table limit }
    {
        FcntlTable {
            hosts: Hosts::new(alloc),
            locks: LockTable::new(alloc, limit),
        }
    }

    /// Makes an entry for the host, without a running process, if it has none. Takes no memory if
    /// it has one.
    ///
    /// # Errors
    /// `AllocError` where a request for memory was refused.
    #[tactic(auto, unfolding(crate::specs::rule::Tables::table_of))]
    pub fn admit(&mut self, host: Host) -> Result<(), AllocError>
        ensures same { table_of self.new ≡ table_of self.old }
        ensures kept { OnOk result (Keeps self.new host) }
        ensures known { Keeps self.old host → IsOk result }
    {
        self.hosts.admit(host)
    }

    /// What a lock call of the process is about.
    ///
    /// # Errors
    /// The reply of the first test that fails: the process, the descriptor, the segment, the access
    /// mode of the descriptor (POSIX.1-2017 `fcntl()`).
    pub fn target(
        &self,
        process: Process,
        need: Option<Mode>,
        fd: u8,
        kind: Kind,
        start: i64,
        len: i64,
    ) -> Result<LockTarget, Reply>
        ensures value { result ≡ target (table_of self.now) process need fd kind start len }
        ensures own { IfOk result (λ call. IsOwn process.node process.incarnation call.owner) }
        ensures span { IfOk result (λ call. IsSpan call.span) }
    {
        match self.hosts.resolve(host_of(process), process.pid, fd) {
            Ok(opened) => target_at(process, need, kind, opened, Span::from_flock(start, len)),
            Err(error) => Err(error.reply()),
        }
    }

    /// What a call of the process about a lock is about, or the reply of the first test that fails.
    pub fn call_target(&self, process: Process, call: LockCall) -> Result<LockTarget, Reply>
        ensures value { result ≡ call_target (table_of self.now) process call }
        ensures own { IfOk result (λ target. IsOwn process.node process.incarnation target.owner) }
        ensures span { IfOk result (λ target. IsSpan target.span) }
    {
        let need = call.need();
        self.target(process, need, call.fd, call.kind, call.start, call.len)
    }

    /// The lowest region of another owner that blocks the call (POSIX.1-2017 `fcntl()`, F_GETLK): by first
    /// byte, then by owner. Takes no memory.
    #[tactic(auto, unfolding(crate::specs::rule::Tables::table_of))]
    pub fn blocker(&self, call: LockTarget, mode: Mode) -> Option<LockInfo>
        ensures { MatchOption result (Unblocked (table_of self.now) call mode) (IsLowestBlocker ((table_of self.now).locks call.file) call.owner call.span mode) }
    {
        self.locks.blocker(call.owner, call.file, call.span, mode)
    }

    /// Whether the lock is a region of its owner in the file. Takes no memory.
    #[tactic(auto, unfolding(crate::specs::rule::Tables::table_of))]
    pub fn has_region(&self, file: u16, lock: &LockInfo) -> bool
        ensures { IsTrue result ↔ IsRegion ((table_of self.now).locks file) lock.now }
    {
        self.locks.has_region(file, lock)
    }

    /// Makes a planned change. Takes no memory.
    #[tactic(auto, unfolding(crate::specs::rule::Tables::table_of))]
    pub fn apply(&mut self, edit: TableEdit)
        requires { Fits self.old edit }
        ensures { table_of self.new ≡ edited (table_of self.old) edit }
    {
        match edit {
            TableEdit::Nothing => {}
            TableEdit::OfProcess { host, edit } => self.hosts.apply(host, edit),
            TableEdit::OfLocks(edit) => self.locks.apply(edit),
            TableEdit::Closes { process, fd } => self.close_of(process, fd),
            TableEdit::Exits { process } => self.exit_of(process),
        }
    }

    // Makes an entry for the process's host if the call is `Spawn`.
    fn make_room(&mut self, process: Process, call: ProcessCall) -> Result<(), AllocError>
        ensures same { table_of self.new ≡ table_of self.old }
        ensures kept { OnOk result (call ≡ ProcessCall.Spawn → Keeps self.new (record { node = process.node; incarnation = process.incarnation })) }
        ensures known { Keeps self.old (record { node = process.node; incarnation = process.incarnation }) → IsOk result }
        ensures memory { begins call ≡ false → IsOk result }
        ensures spawn { OnErr result (call ≡ ProcessCall.Spawn) }
    {
        match call {
            ProcessCall::Spawn => self.admit(host_of(process)),
            _ => Ok(()),
        }
    }

    /// Makes the call of a process on processes and descriptors. `Spawn` begins the calling process
    /// without descriptors: the reply is `Done`, or `Exists` where it runs already. `Fork` begins
    /// the child, 1 to 256, with the caller's descriptors (POSIX.1-2017 `fork()`): `Done`,
    /// `NoProcess`, or `Exists` where the child runs already. `Open` opens a file (POSIX.1-2017
    /// `open()`): the descriptor, `NoProcess` or `TooManyFiles`. `Dup` makes one more descriptor
    /// (POSIX.1-2017 `dup()`): that descriptor, `NoProcess`, `BadFd` or `TooManyFiles`. Takes
    /// memory only where a process begins.
    ///
    /// # Errors
    /// `AllocError` where a request for memory was refused; never in place of a reply that refuses
    /// the call.
    pub fn call(&mut self, process: Process, call: ProcessCall) -> Result<Reply, AllocError>
        requires { CanBegin process.pid call }
        ensures ok { IfOk result (λ reply. Is (beside (table_of self.old) process (after (around (table_of self.old) process) process.pid call)) reply (table_of self.new)) }
        ensures refused { (refusal : Reply) → after (around (table_of self.old) process) process.pid call ≡ Err refusal → result ≡ Ok refusal }
        ensures memory { begins call ≡ false → IsOk result }
        ensures unchanged { OnErr result (table_of self.new ≡ table_of self.old) }
    {
        self.make_room(process, call)?;
        let Planned { edit, reply } = self.plan_call(process, call)?;
        self.apply(edit);
        Ok(reply)
    }

    /// Closes the descriptor and drops all locks of the process on its file; if it was the last
    /// descriptor of its description, the description's locks are dropped too (POSIX.1-2017
    /// `close()`, `fcntl()`; Linux `fcntl(2)`). The reply is `Done`, `NoProcess` or `BadFd`. Takes
    /// no memory.
    pub fn close(&mut self, process: Process, fd: u8) -> Reply
        ensures { Is (after_close (table_of self.old) process fd) result (table_of self.new) }
    {
        let Planned { edit, reply } = self.plan_close(process, fd);
        self.apply(edit);
        reply
    }

    /// Closes each descriptor of the process and ends it (POSIX.1-2017 `_exit()`). The reply is
    /// `Done` or `NoProcess`. Takes no memory.
    pub fn exit(&mut self, process: Process) -> Reply
        ensures { Is (after_exit (table_of self.old) process) result (table_of self.new) }
    {
        let Planned { edit, reply } = self.plan_exit(process);
        self.apply(edit);
        reply
    }

    /// Locks the bytes of the call in the mode, or frees them, whatever other owners hold. To
    /// prevent conflicting locks, ask `blocker` first. The reply is `Done`, or `NoLocks` where the
    /// owner would have more regions in the file than the limit (ENOLCK).
    ///
    /// # Errors
    /// `AllocError` where a request for memory was refused; never in place of `NoLocks`.
    pub fn lock_within(&mut self, call: LockTarget, mode: Option<Mode>) -> Result<Reply, AllocError>
        ensures ok { IfOk result (λ reply. Is (lock_within (table_of self.old) call mode) reply (table_of self.new)) }
        ensures refused { (table_of self.old).limit < regions_with (table_of self.old) call mode → result ≡ Ok Reply.NoLocks }
        ensures unchanged { OnErr result (table_of self.new ≡ table_of self.old) }
    {
        let Planned { edit, reply } = self.plan_lock(call, mode)?;
        self.apply(edit);
        Ok(reply)
    }
}
