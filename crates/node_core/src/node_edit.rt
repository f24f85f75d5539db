//! What a step of a node changes, as plain data.
ghost use Rattle.std.specs.Prelude.{◌≡◌, ℕ, true, false, Some, None, [], IfOk};
ghost use Rattle.fcntl_table.specs.rule.Hosts.{shown};
ghost use Rattle.model.specs.rule.Descriptors.{Processes as ProcessTable};
ghost use Rattle.node_core.specs.code.Plans.{table_after, RowsFit};
ghost use Rattle.node_core.specs.declared.node_edit.NodeTableEdit.TheVariants.{Nothing};
ghost use Rattle.node_core.specs.declared.open_calls.CallsEdit.TheVariants.{Same};

use crate::file_row::FileEdit;
use crate::open_calls::CallsEdit;
use descriptors::edit::ProcessEdit;
use descriptors::processes::Processes;
use fcntl_table::shut::{close_at, exit_at};
use lock_table::lock_table::{LockEdit, LockTable};
use messages::Items;
use model::Host;
use std::alloc::{AllocError, Global};

/// The changes of a step that come before a call is tried: whether the call takes the next number,
/// and what a command changes at its file. (In a box, because a change is handed on often.)
#[derive(Drop)]
pub struct NodeDraft {
    pub numbered: bool,
    pub command: Option<Box<FileEdit>>,
}

impl NodeDraft {
    /// The draft without a change.
    pub fn none() -> NodeDraft
        ensures { result ≡ record { numbered = false; command = None } }
    {
        NodeDraft {
            numbered: false,
            command: None,
        }
    }

    /// The draft of a call, which takes the next number.
    pub fn of_call() -> NodeDraft
        ensures { result ≡ record { numbered = true; command = None } }
    {
        NodeDraft {
            numbered: true,
            command: None,
        }
    }

    /// The draft of a command, which changes its file.
    pub fn of_command(edit: Box<FileEdit>) -> NodeDraft
        ensures { result ≡ record { numbered = false; command = Some edit } }
    {
        NodeDraft {
            numbered: false,
            command: Some(edit),
        }
    }
}

/// What a step changes of the node's processes and their locks.
#[derive(Drop)]
pub enum NodeTableEdit {
    Nothing,
    /// A process begins, or a descriptor opens.
    OfProcess(ProcessEdit),
    /// An owner's locks in a file change. (In a box, as above.)
    OfLocks(Box<LockEdit>),
    /// A descriptor of a process is closed, and the locks that depend on it are dropped.
    Closes { pid: u16, fd: u8 },
    /// A process exits: all its descriptors are closed, and it runs no longer.
    Exits { pid: u16 },
}

/// What a step changes, in this order: its draft, the processes and their locks, the open calls,
/// and the files for which a Freed is sent and owed no longer.
#[derive(Drop)]
pub struct NodeEdit {
    pub draft: NodeDraft,
    pub table: NodeTableEdit,
    pub calls: CallsEdit,
    pub freed: Items<u16>,
}

impl NodeEdit {
    /// The draft and no other change.
    ///
    /// # Errors
    /// `AllocError` where a request for memory was refused.
    pub fn of(alloc: Global, draft: NodeDraft) -> Result<Box<NodeEdit>, AllocError>
        ensures { IfOk result (λ edit. edit.value ≡ record { draft = draft; table = Nothing; calls = Same; freed = [] }) }
    {
        let edit = NodeEdit {
            draft,
            table: NodeTableEdit::Nothing,
            calls: CallsEdit::Same,
            freed: Items::new(alloc),
        };
        Ok(Box::new(alloc, edit)?)
    }

    /// No change.
    ///
    /// # Errors
    /// `AllocError` where a request for memory was refused.
    pub fn none(alloc: Global) -> Result<Box<NodeEdit>, AllocError>
        ensures { IfOk result (λ edit. edit.value ≡ record { draft = record { numbered = false; command = None }; table = Nothing; calls = Same; freed = [] }) }
    {
        NodeEdit::of(alloc, NodeDraft::none())
    }
}

/// Makes a planned change of the host's processes and locks. Takes no memory.
pub fn apply_table(
    processes: &mut Processes,
    locks: &mut LockTable,
    host: Host,
    edit: NodeTableEdit,
)
    requires { RowsFit processes.old locks.old edit }
    ensures { (on : ℕ → ℕ → ProcessTable) → shown on host processes.new locks.new ≡ table_after host (shown on host processes.old locks.old) edit }
{
    match edit {
        NodeTableEdit::Nothing => {}
        NodeTableEdit::OfProcess(edit) => processes.apply(edit),
        NodeTableEdit::OfLocks(edit) => locks.apply(Box::into_inner(edit)),
        NodeTableEdit::Closes { pid, fd } => close_at(processes, locks, host, pid, fd),
        NodeTableEdit::Exits { pid } => exit_at(processes, locks, host, pid),
    }
}
