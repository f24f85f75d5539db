//! The parts of a node that its steps read.
ghost use Rattle.std.specs.Prelude.{◌≡◌, ◌≤◌, ◌-◌, Some, IfSome};
ghost use Rattle.std.specs.List.{slice_get};
ghost use Rattle.model.specs.rule.Limits.{IsNumber, most_processes};
ghost use Rattle.node_core.specs.rule.State.{process, id_of, open_call, open_call_of};
ghost use Rattle.node_core.specs.rule.Files.{state_of};
ghost use Rattle.node_core.specs.rule.Parts.{node_state, IsCallOf};

use super::Node;
use crate::file_row::FileRow;
use crate::open_call::OpenCall;
use messages::FileNumber;
use model::{CallId, Process};

impl Node {
    #[tactic(auto, unfolding(crate::specs::rule::Parts::node_state))]
    pub(super) fn process(&self, pid: u16) -> Process
        requires { IsNumber most_processes pid }
        ensures { result ≡ process (node_state self.now) pid }
    {
        Process {
            node: self.node,
            incarnation: self.incarnation,
            pid,
        }
    }

    #[tactic(auto, unfolding(crate::specs::rule::Parts::node_state))]
    pub(super) fn id(&self, number: u32) -> CallId
        requires { 1 ≤ number }
        ensures { result ≡ id_of (node_state self.now) number }
    {
        CallId {
            node: self.node,
            incarnation: self.incarnation,
            number,
        }
    }

    // The open call with this number.
    #[tactic(auto, unfolding(crate::specs::rule::Parts::node_state))]
    pub(super) fn open_call(&self, number: u32) -> Option<OpenCall>
        ensures value { result ≡ open_call (node_state self.now) number }
        ensures own { IfSome result (IsCallOf (node_state self.now)) }
    {
        self.pending.get(number)
    }

    // The open call of the process.
    #[tactic(auto, unfolding(crate::specs::rule::Parts::node_state))]
    pub(super) fn open_call_of(&self, pid: u16) -> Option<OpenCall>
        ensures value { result ≡ open_call_of (node_state self.now) pid }
        ensures own { IfSome result (IsCallOf (node_state self.now)) }
    {
        self.pending.call_of(pid)
    }

    // What the node knows of the file.
    pub(super) fn file(&self, file: u16) -> &FileRow
        requires { IsNumber (node_state self.now).shape.files file }
        ensures state { state_of result.now ≡ (node_state self.now).files file }
        ensures row { slice_get self.now.files (file - 1) ≡ Some result.now }
    {
        self.files.get(file)
    }

    // The number of a file of the shape, as messages have it.
    #[tactic(auto, unfolding(crate::specs::rule::Parts::node_state))]
    pub(super) fn file_number(&self, file: u16) -> FileNumber
        requires { IsNumber (node_state self.now).shape.files file }
        ensures { result ≡ file }
    {
        let _ = self.shape.files(); // tells the proof that the number of files is in range
        FileNumber::of(file)
    }
}
