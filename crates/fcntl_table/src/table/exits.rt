//! Closes of descriptors, exits of processes, and failures of hosts, on the whole table.
ghost use Rattle.std.specs.Prelude.{◌≡◌, true};
ghost use Rattle.model.specs.rule.Limits.{IsNumber, most_processes};
ghost use Rattle.model.specs.rule.Table.{is_running, descriptor, closed_if, exited, exited_if, gone};
ghost use Rattle.fcntl_table.specs.rule.Hosts.{process_at};
ghost use Rattle.fcntl_table.specs.rule.Tables.{table_of};

use super::{FcntlTable, host_of};
use model::{Host, MOST_PROCESSES, Process};

impl FcntlTable {
    /// Lets all processes of the node's incarnation exit, as where the node fails. If the numbers
    /// are out of range no process runs, and nothing changes. Takes no memory.
    pub fn gone(&mut self, node: u8, incarnation: u16)
        ensures { table_of self.new ≡ gone (table_of self.old) node incarnation }
    {
        if let Some(host) = self.hosts.host(node, incarnation) {
            self.exit_all(host);
            self.forget_idle(host);
        }
    }

    // Removes the entry of the host, if no process of it runs.
    #[tactic(auto, unfolding(crate::specs::rule::Tables::table_of))]
    fn forget_idle(&mut self, host: Host)
        ensures { table_of self.new ≡ table_of self.old }
    {
        self.hosts.forget_idle(host);
    }

    // Lets each process of the host exit.
    fn exit_all(&mut self, host: Host)
        ensures { table_of self.new ≡ gone (table_of self.old) host.node host.incarnation }
    {
        for pid in 1..MOST_PROCESSES + 1 {
            self.exit_if(host, pid);
        }
    }

    // Lets the process exit, if it runs.
    #[tactic(auto, unfolding(crate::specs::rule::Tables::table_of))]
    fn exit_if(&mut self, host: Host, pid: u16)
        requires { IsNumber most_processes pid }
        ensures { table_of self.new ≡ exited_if (table_of self.old) (process_at host pid) }
    {
        if self.hosts.is_running(host, pid) {
            self.exit_on(host, pid);
        }
    }

    // Lets the process, which runs, exit.
    pub(super) fn exit_of(&mut self, process: Process)
        requires { is_running (table_of self.old) process ≡ true }
        ensures { table_of self.new ≡ exited (table_of self.old) process }
    {
        self.exit_on(host_of(process), process.pid);
    }

    // Closes the descriptor of the process, which runs, if it is open.
    pub(super) fn close_of(&mut self, process: Process, fd: u8)
        requires { is_running (table_of self.old) process ≡ true }
        ensures { table_of self.new ≡ closed_if (table_of self.old) process fd (descriptor (table_of self.old) process fd) }
    {
        self.close_if(host_of(process), process.pid, fd);
    }

    // Lets the process of the host exit.
    #[tactic(auto, unfolding(crate::specs::rule::Tables::table_of))]
    fn exit_on(&mut self, host: Host, pid: u16)
        requires number { IsNumber most_processes pid }
        requires runs { is_running (table_of self.old) (process_at host pid) ≡ true }
        ensures { table_of self.new ≡ exited (table_of self.old) (process_at host pid) }
    {
        self.hosts.exit(&mut self.locks, host, pid);
    }

    // Closes the descriptor of the host's process, if it is open.
    #[tactic(auto, unfolding(crate::specs::rule::Tables::table_of))]
    fn close_if(&mut self, host: Host, pid: u16, fd: u8)
        requires number { IsNumber most_processes pid }
        requires runs { is_running (table_of self.old) (process_at host pid) ≡ true }
        ensures { table_of self.new ≡ closed_if (table_of self.old) (process_at host pid) fd
            (descriptor (table_of self.old) (process_at host pid) fd) }
    {
        self.hosts.close(&mut self.locks, host, pid, fd);
    }
}
