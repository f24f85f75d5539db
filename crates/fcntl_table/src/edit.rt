//! Planned changes of the table, as plain data.
use descriptors::edit::ProcessEdit;
use lock_table::lock_table::LockEdit;
use model::{Host, Process, Reply};

/// A planned change of the table by a call.
#[derive(Drop)]
pub enum TableEdit {
    /// The table stays as it is.
    Nothing,
    /// A process of the host begins, or a descriptor of it opens.
    OfProcess { host: Host, edit: ProcessEdit },
    /// An owner's locks in a file change.
    OfLocks(LockEdit),
    /// A descriptor of the process is closed, and the locks that depend on it are dropped.
    Closes { process: Process, fd: u8 },
    /// The process exits.
    Exits { process: Process },
}

/// A planned change of the table by a call, with the call's reply.
#[derive(Drop)]
pub struct Planned {
    pub edit: TableEdit,
    pub reply: Reply,
}
