//! Planned changes of the processes of a node.
use crate::processes::Processes;
use model::Opened;

/// A planned change of one process.
#[derive(Drop)]
pub enum ProcessEdit {
    /// The process begins, with no descriptors. If it has no place yet, `more` has the same
    /// processes with places up to its number.
    Begins {
        pid: u16,
        more: Option<Processes>,
    },
    /// The child begins, with the descriptors of the process. If the child has no place yet, `more`
    /// has the same processes with places up to its number.
    Forks {
        pid: u16,
        child: u16,
        more: Option<Processes>,
    },
    /// The descriptor, which is free, gets to refer to `opened`.
    Opens {
        pid: u16,
        fd: u8,
        opened: Opened,
    },
}
