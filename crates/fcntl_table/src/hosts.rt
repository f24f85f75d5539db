//! The processes of each host; a host is a node in one of its incarnations.
ghost use Rattle.std.specs.Prelude.{◌≡◌, ◌≢◌, ℕ, true, false, Ok, IfOk, IfErr, IsOk, IsTrue, ◌↔◌, OnOk, MatchOption};
ghost use Rattle.model.specs.rule.Limits.{IsHost, IsNumber, most_processes, most_descriptions};
ghost use Rattle.model.specs.rule.Descriptors.{no_processes, after};
ghost use Rattle.model.specs.rule.Table.{descriptor, closed_if, exited};
ghost use Rattle.descriptors.specs.code.Rows.{resolved, Refuses, begins, CanBegin};
ghost use Rattle.descriptors.specs.code.Edits.{edited};
ghost use Rattle.fcntl_table.specs.rule.Hosts.{IsKept, process_at, processes_of, table_with, with_host};
ghost use Rattle.fcntl_table.specs.code.Hosts.{FitsOn};

use crate::shut::{close_at, exit_at};
use descriptors::edit::ProcessEdit;
use descriptors::error::{FdError, ProcessError};
use descriptors::processes::Processes;
use indexmap::IndexMap;
use lock_table::lock_table::LockTable;
use model::{Host, MOST_NODES, Opened, ProcessCall, Reply};
use std::alloc::{AllocError, Global};
use std::marker::Model;

/// The processes of each host, by the host.
#[derive(Drop)]
pub(crate) struct Hosts {
    alloc: Global,
    by_host: IndexMap<Host, Processes>,
}

impl Model for Hosts {
    ghost use Rattle.fcntl_table.specs.rule.Hosts.{HostRows, AreHosts};

    ghost Value = { HostRows };

    ghost view = { λ h. h.by_host.entries };

    ghost invariant = { λ h. AreHosts h.by_host.entries };
}

// Whether the numbers of a node and of an incarnation are in range.
fn is_host(node: u8, incarnation: u16) -> bool
    ensures { IsTrue result ↔ IsHost node incarnation }
{
    1 <= node && node <= MOST_NODES && 1 <= incarnation
}

impl Hosts {
    /// The processes of all hosts where none runs.
    pub(crate) fn new(alloc: Global) -> Self
        ensures { (node incarnation : ℕ) → processes_of result node incarnation ≡ no_processes }
    {
        Hosts {
            alloc,
            by_host: IndexMap::new(alloc),
        }
    }

    /// What the descriptor of the host's process refers to.
    ///
    /// # Errors
    /// The errors of `Processes::resolve`, in the same cases.
    pub(crate) fn resolve(&self, host: Host, pid: u16, fd: u8) -> Result<Opened, FdError>
        ensures value { result ≡ resolved (processes_of self.now host.node host.incarnation) pid fd }
        ensures number { IfOk result (λ opened. IsNumber most_descriptions opened.description) }
    {
        match self.by_host.get(&host) {
            Some(node) => node.resolve(pid, fd),
            None => Err(FdError::NoProcess),
        }
    }

    /// Makes an entry for the host, without a running process, if it has none. Takes no memory if
    /// it has one.
    ///
    /// # Errors
    /// `AllocError` where a request for memory was refused.
    pub(crate) fn admit(&mut self, host: Host) -> Result<(), AllocError>
        ensures same { processes_of self.new ≡ processes_of self.old }
        ensures kept { OnOk result (IsKept self.new host) }
        ensures known { IsKept self.old host → IsOk result }
    {
        if self.by_host.contains_key(&host) {
            return Ok(());
        }
        let _ = &host.node; // tells the proof that the numbers of a host are in range
        self.by_host.insert(host, Processes::new(self.alloc))?;
        Ok(())
    }

    /// The change that the call of the host's process would make, and its reply. Takes memory only
    /// where a process would begin.
    ///
    /// # Errors
    /// The errors of `Processes::plan`, in the same cases.
    pub(crate) fn plan(
        &self,
        host: Host,
        pid: u16,
        call: ProcessCall,
    ) -> Result<(ProcessEdit, Reply), ProcessError>
        requires number { CanBegin pid call }
        requires kept { call ≡ ProcessCall.Spawn → IsKept self.now host }
        ensures ok { IfOk result (λ planned. after (processes_of self.now host.node host.incarnation) pid call ≡ Ok (edited (processes_of self.now host.node host.incarnation) planned.0, planned.1)) }
        ensures err { IfErr result (λ error. Refuses error (after (processes_of self.now host.node host.incarnation) pid call)) }
        ensures memory { begins call ≡ false → IfErr result (λ error. error ≢ ProcessError.NoMemory) }
        ensures fits { IfOk result (λ planned. FitsOn self.now host planned.0) }
    {
        match self.by_host.get(&host) {
            Some(node) => node.plan(pid, call),
            None => Err(ProcessError::NoProcess),
        }
    }

    /// Makes a planned change. Takes no memory.
    pub(crate) fn apply(&mut self, host: Host, edit: ProcessEdit)
        requires { FitsOn self.old host edit }
        ensures { processes_of self.new ≡ with_host (processes_of self.old) host (edited (processes_of self.old host.node host.incarnation) edit) }
    {
        let Some(node) = self.by_host.get_mut(&host) else {
            unreachable!()
        };
        node.apply(edit);
    }

    /// The host with these numbers, if they are in range; else no process of it runs.
    pub(crate) fn host(&self, node: u8, incarnation: u16) -> Option<Host>
        ensures { MatchOption result ((pid : ℕ) → (processes_of self.now node incarnation).runs pid ≡ false) (λ host. (host.node ≡ node) × (host.incarnation ≡ incarnation)) }
    {
        let _ = &self.by_host; // tells the proof that the entries are of hosts
        if !is_host(node, incarnation) {
            return None;
        }
        Some(Host { node, incarnation })
    }

    /// Whether the process of the host runs.
    pub(crate) fn is_running(&self, host: Host, pid: u16) -> bool
        ensures { result ≡ (processes_of self.now host.node host.incarnation).runs pid }
    {
        self.resolve(host, pid, 0) != Err(FdError::NoProcess)
    }

    /// Closes the descriptor of the host's process, if it is open, and drops the locks that depend
    /// on it.
    pub(crate) fn close(&mut self, locks: &mut LockTable, host: Host, pid: u16, fd: u8)
        requires number { IsNumber most_processes pid }
        requires runs { (processes_of self.old host.node host.incarnation).runs pid ≡ true }
        ensures { table_with self.new locks.new ≡ closed_if (table_with self.old locks.old) (process_at host pid) fd (descriptor (table_with self.old locks.old) (process_at host pid) fd) }
    {
        let Some(node) = self.by_host.get_mut(&host) else {
            return;
        };
        close_at(node, locks, host, pid, fd);
    }

    /// Lets the process of the host exit.
    pub(crate) fn exit(&mut self, locks: &mut LockTable, host: Host, pid: u16)
        requires number { IsNumber most_processes pid }
        requires runs { (processes_of self.old host.node host.incarnation).runs pid ≡ true }
        ensures { table_with self.new locks.new ≡ exited (table_with self.old locks.old) (process_at host pid) }
    {
        let Some(node) = self.by_host.get_mut(&host) else {
            return;
        };
        exit_at(node, locks, host, pid);
    }

    // Whether no process of the host runs.
    fn is_idle(&self, host: Host) -> bool
        ensures { result ≡ true → processes_of self.now host.node host.incarnation ≡ no_processes }
    {
        match self.by_host.get(&host) {
            Some(node) => node.is_idle(),
            None => true,
        }
    }

    /// Removes the entry of the host, if no process of the host runs.
    pub(crate) fn forget_idle(&mut self, host: Host)
        ensures { processes_of self.new ≡ processes_of self.old }
    {
        if self.is_idle(host) {
            self.by_host.swap_remove(&host);
        }
    }
}
