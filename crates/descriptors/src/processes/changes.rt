//! The changes of the processes of a node, as they were planned.
ghost use Rattle.std.specs.Prelude.{◌≡◌, ◌<◌, true, false, None, Some, Ok, length, not};
ghost use Rattle.model.specs.rule.Limits.{IsNumber, most_processes, most_descriptors, most_descriptions};
ghost use Rattle.model.specs.rule.Descriptors.{with_process, with_descriptor, is_open};
ghost use Rattle.descriptors.specs.code.Rows.{resolved};
ghost use Rattle.descriptors.specs.rule.Rows.{processes};
ghost use Rattle.descriptors.specs.code.Edits.{edited, Fits, HasPlace, IsKnown};

use super::Processes;
use crate::counts::share;
use crate::edit::ProcessEdit;
use crate::rows::{copy_row, refer, reset};
use model::Opened;

impl Processes {
    // Sets what the descriptor, which is free, refers to.
    fn refer(&mut self, pid: u16, fd: u8, opened: Opened)
        requires runs { (processes self.old).runs pid ≡ true }
        requires fd { fd < most_descriptors }
        requires number { IsNumber most_descriptions opened.description }
        requires free { (processes self.old).opened pid fd ≡ None }
        requires known { IsKnown (processes self.old) opened.description }
        ensures { processes self.new ≡ with_descriptor (processes self.old) pid fd (Some opened) }
    {
        self.counts.raise(opened.description);
        refer(&mut self.rows, pid as usize, fd, Some(opened));
    }

    // Frees the descriptor. The result is whether no descriptor refers to its description any more.
    pub(super) fn free(&mut self, pid: u16, fd: u8, opened: Opened) -> bool
        requires was { resolved (processes self.old) pid fd ≡ Ok opened }
        requires fd { fd < most_descriptors }
        requires number { IsNumber most_descriptions opened.description }
        ensures closed { processes self.new ≡ with_descriptor (processes self.old) pid fd None }
        ensures gone { result ≡ not (is_open (with_descriptor (processes self.old) pid fd None) opened.description) }
    {
        refer(&mut self.rows, pid as usize, fd, None);
        self.counts.lower(opened.description)
    }

    // Takes over `more`, the same processes with more places, if there are any.
    fn take_place(&mut self, pid: u16, more: Option<Processes>)
        requires { HasPlace self.old pid more }
        ensures place { pid < length self.new }
        ensures same { processes self.new ≡ processes self.old }
    {
        if let Some(more) = more {
            *self = more;
        }
    }

    // Begins the child, which doesn't run and has a place, with the descriptors of the process.
    fn copy_to(&mut self, pid: u16, child: u16)
        requires runs { (processes self.old).runs pid ≡ true }
        requires idle { (processes self.old).runs child ≡ false }
        requires number { IsNumber most_processes child }
        requires place { child < length self.old }
        ensures { processes self.new ≡ with_process (processes self.old) child true ((processes self.old).opened pid) }
    {
        share(&mut self.counts, &self.rows, pid as usize);
        copy_row(&mut self.rows, pid as usize, child as usize);
    }

    // Begins the process, which doesn't run and has a place.
    fn begin(&mut self, pid: u16)
        requires idle { (processes self.old).runs pid ≡ false }
        requires number { IsNumber most_processes pid }
        requires place { pid < length self.old }
        ensures { processes self.new ≡ with_process (processes self.old) pid true (λ fd. None) }
    {
        reset(&mut self.rows, pid as usize, true);
    }

    /// Makes a planned change. Takes no memory.
    pub fn apply(&mut self, edit: ProcessEdit)
        requires { Fits self.old edit }
        ensures { processes self.new ≡ edited (processes self.old) edit }
    {
        match edit {
            ProcessEdit::Begins { pid, more } => {
                self.take_place(pid, more);
                self.begin(pid);
            }
            ProcessEdit::Forks { pid, child, more } => {
                self.take_place(child, more);
                self.copy_to(pid, child);
            }
            ProcessEdit::Opens { pid, fd, opened } => self.refer(pid, fd, opened),
        }
    }
}
