//! How a host's descriptors are closed and its processes exit, with the locks that depend on them.
ghost use Rattle.std.specs.Prelude.{◌≡◌, ℕ, true, IfSome};
ghost use Rattle.model.specs.rule.Limits.{IsNumber, most_of, most_processes, most_descriptions};
ghost use Rattle.model.specs.rule.Descriptors.{Processes as ProcessTable};
ghost use Rattle.model.specs.rule.Table.{descriptor, closed_if, exited};
ghost use Rattle.descriptors.specs.rule.Rows.{processes as processes_of};
ghost use Rattle.fcntl_table.specs.rule.Hosts.{Closes, process_at, shown};

use descriptors::processes::Processes;
use lock_table::lock_table::LockTable;
use model::{Host, Kind, MOST_DESCRIPTORS, Opened, Owner};

// The owner of that kind and number on the host.
fn owner(host: Host, kind: Kind, number: u16) -> Owner
    requires { IsNumber (most_of kind) number }
    ensures { result ≡ record { node = host.node; incarnation = host.incarnation; kind = kind; number = number } }
{
    Owner {
        node: host.node,
        incarnation: host.incarnation,
        kind,
        number,
    }
}

// Closes the descriptor, if it is open. The result is what it referred to, and whether no
// descriptor refers to that description any more.
fn close_in(node: &mut Processes, pid: u16, fd: u8) -> Option<(Opened, bool)>
    ensures closes { Closes (processes_of node.old) pid fd result (processes_of node.new) }
    ensures number { IfSome result (λ closed. IsNumber most_descriptions closed.0.description) }
{
    let opened = node.resolve(pid, fd).ok()?;
    let went = node.close(pid, fd).ok()?;
    Some((opened, went))
}

/// Closes the descriptor of the host's process, if it is open. The locks of the process in its file
/// are dropped, and the locks of its description too, if no descriptor of the host refers to that
/// any more (POSIX.1-2017 `close()`, `fcntl()`; Linux `fcntl(2)`). The number of the process is
/// from 1 to 256. Takes no memory.
pub fn close_at(processes: &mut Processes, locks: &mut LockTable, host: Host, pid: u16, fd: u8)
    requires number { IsNumber most_processes pid }
    requires runs { (processes_of processes.old).runs pid ≡ true }
    ensures { (on : ℕ → ℕ → ProcessTable) → shown on host processes.new locks.new ≡ closed_if (shown on host processes.old locks.old) (process_at host pid) fd (descriptor (shown on host processes.old locks.old) (process_at host pid) fd) }
{
    let Some((opened, went)) = close_in(processes, pid, fd) else {
        return;
    };
    locks.drop_owner(owner(host, Kind::OfProcess, pid), opened.file);
    if went {
        locks.drop_owner_anywhere(owner(host, Kind::OfDescription, opened.description));
    }
}

/// Lets the process of the host exit: each of its descriptors is closed, and it doesn't run any
/// more (POSIX.1-2017 `_Exit()`). Its number is from 1 to 256. Takes no memory.
pub fn exit_at(processes: &mut Processes, locks: &mut LockTable, host: Host, pid: u16)
    requires number { IsNumber most_processes pid }
    requires runs { (processes_of processes.old).runs pid ≡ true }
    ensures { (on : ℕ → ℕ → ProcessTable) → shown on host processes.new locks.new ≡ exited (shown on host processes.old locks.old) (process_at host pid) }
{
    for fd in 0..MOST_DESCRIPTORS {
        close_at(processes, locks, host, pid, fd);
    }
    processes.end(pid);
}
