//! One process and its descriptors, as a row of the table of processes.
ghost use Rattle.std.specs.Prelude.{◌≡◌, ◌↔◌, ◌<◌, ◌==◌, if◌then◌else◌, IsTrue, IfSome, ℕ, None};
ghost use Rattle.model.specs.rule.Descriptors.{is_of_file};
ghost use Rattle.descriptors.specs.code.Rows.{IsSameRow};
ghost use Rattle.descriptors.specs.rule.Rows.{slot};

use model::{MOST_DESCRIPTORS, Opened};

/// Whether a process runs, and what each of its descriptors refers to.
#[derive(Clone, Copy)]
pub struct ProcessEntry {
    pub runs: bool,
    pub opened: [Option<Opened>; 64],
}

// Whether both are equal references, or none.
fn same_opened(one: Option<Opened>, other: Option<Opened>) -> bool
    ensures { IsTrue result ↔ (one ≡ other) }
{
    one == other
}

// Whether a descriptor with this content is of the file.
pub(crate) fn is_of_file(file: u16, opened: Option<Opened>) -> bool
    ensures { result ≡ is_of_file file opened }
{
    opened.is_some_and(|opened| opened.file == file)
}

impl ProcessEntry {
    /// A process that runs or doesn't, without descriptors.
    pub fn new(runs: bool) -> ProcessEntry
        ensures runs { result.runs ≡ runs }
        ensures opened { (fd : ℕ) → slot result.opened fd ≡ None }
    {
        ProcessEntry {
            runs,
            opened: [None; 64],
        }
    }

    /// What the descriptor refers to; `None` if it is free, or if `fd` is above 63.
    pub fn opened(&self, fd: u8) -> Option<Opened>
        ensures value { result ≡ slot self.now.opened fd }
        ensures within { IfSome result (λ _. fd < 64) }
    {
        match self.opened.get(fd as usize) {
            Some(opened) => *opened,
            None => None,
        }
    }

    /// Sets what the descriptor refers to, or frees it.
    pub fn refer(&mut self, fd: u8, opened: Option<Opened>)
        requires { fd < 64 }
        ensures runs { self.new.runs ≡ self.old.runs }
        ensures opened { (k : ℕ) → slot self.new.opened k ≡ (if k == fd then opened else slot self.old.opened k) }
    {
        self.opened[fd as usize] = opened;
    }

    /// Whether both processes run, or neither does, and they have the same descriptors.
    pub fn same(&self, other: &ProcessEntry) -> bool
        ensures { IsTrue result ↔ IsSameRow self.now other.now }
    {
        if self.runs != other.runs {
            return false;
        }
        for fd in 0..MOST_DESCRIPTORS {
            if !same_opened(self.opened(fd), other.opened(fd)) {
                return false;
            }
        }
        true
    }
}
