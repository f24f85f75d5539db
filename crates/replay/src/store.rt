//! Files.
ghost use Rattle.std.specs.Prelude.{◌≡◌, ℕ, List, [], ⊤, IfOk, OnErr, OnOk, Option, Result, Err, None, Some};
ghost use Rattle.replay.specs.rule.Stores.{SameFiles, SameOthers, Adds};
ghost use Rattle.replay.specs.declared.store.FileReason.{FileReason};
ghost use Rattle.replay.specs.declared.store.StoreError.TheVariants.{Failed, NoMemory};

use std::alloc::{AllocError, Global};

/// Why a file was not read, or not written.
#[derive(Clone, Copy)]
pub enum StoreError {
    /// A request for memory was refused.
    NoMemory,
    /// The system refused it, for this reason.
    Failed(FileReason),
}

/// Files by their paths.
pub trait Store {
    /// A file that is made piece by piece.
    type Draft: FileDraft + Drop;

    // The file of a path has these bytes, or can't be read, where that is known.
    ghost holds: { Self → List ℕ → Option (List ℕ) → Type 0 } = { λ _ _ _. ⊤ };

    // A request for memory was refused.
    ghost ran_short: { Self → Type 0 } = { λ _. ⊤ };

    // The file of a path was not written.
    ghost refuses: { Self → List ℕ → Type 0 } = { λ _ _. ⊤ };

    /// The bytes of a file.
    ///
    /// # Errors
    /// `Failed` where the file can't be read; `NoMemory` where a request for memory was refused.
    fn read(&mut self, alloc: Global, path: &str) -> Result<Vec<u8>, StoreError>
        ensures bytes { IfOk result (λ bytes. holds self.old path.now (Some bytes.items)) }
        ensures failed { (reason : FileReason) → result ≡ Err (Failed reason) → holds self.old path.now None }
        ensures short { result ≡ Err NoMemory → ran_short self.new }

        // No file changes.
        ensures files { SameFiles (holds self.old) (holds self.new) };

    /// Begins a file that is to take the place of that of a path. It has no bytes yet.
    fn begin(&mut self, path: &str) -> Self::Draft
        ensures empty { Self.Draft.has result path.now [] }

        // No file changes.
        ensures files { SameFiles (holds self.old) (holds self.new) };

    /// Puts a file that was made for this path there, in the place of one that is there.
    ///
    /// # Errors
    /// `Failed` where it can't be written, or couldn't be while it was made; `NoMemory` where a request for memory was
    /// refused. What the file of the path then has is not said.
    fn commit(&mut self, path: &str, draft: Self::Draft) -> Result<(), StoreError>
        ensures bytes { OnOk result ((text : List ℕ) → Self.Draft.has draft path.now text → holds self.new path.now (Some text)) }
        ensures refused { OnErr result (refuses self.new path.now) }

        // No other file changes.
        ensures others { SameOthers (holds self.old) (holds self.new) path.now };

    /// Gives up a file that was begun, of which nothing is left.
    fn abandon(&mut self, draft: Self::Draft)
        ensures files { SameFiles (holds self.old) (holds self.new) };

    /// Tries whether a file could be put in the place of that of a path, and leaves none there.
    ///
    /// # Errors
    /// `Failed` where none could; `NoMemory` where a request for memory was refused.
    fn try_write(&mut self, path: &str) -> Result<(), StoreError>
        ensures refused { (reason : FileReason) → result ≡ Err (Failed reason) → refuses self.new path.now }
        ensures short { result ≡ Err NoMemory → ran_short self.new }

        // No file changes.
        ensures files { SameFiles (holds self.old) (holds self.new) };
}

/// What a file is to have, made piece by piece. No file changes by it.
pub trait FileDraft {
    // It is for the file of this path, and has these bytes, where that is known.
    ghost has: { Self → List ℕ → List ℕ → Type 0 } = { λ _ _ _. ⊤ };

    /// Takes bytes behind those that it has. That they can't be written is told by `Store::commit`, and not here.
    ///
    /// # Errors
    /// `AllocError` where a request for memory was refused.
    fn add(&mut self, bytes: &[u8]) -> Result<(), AllocError>
        ensures { OnOk result (Adds (has self.old) (has self.new) bytes.now) };
}

/// Why a file was not read, or not written.
#[derive(Clone, Copy)]
pub enum FileReason {
    /// The system says why, in these words.
    Told(&'static str),
    /// Its bytes are not UTF-8: the place of the first one that is none, each from 1, the column in characters.
    NotText { line: u64, column: u64 },
    /// There was no memory for it.
    NoMemory,
    /// The system refused it for another reason.
    Refused,
}

impl FileReason {
    /// Its words, up to the numbers in it.
    pub(crate) fn words(self) -> &'static str {
        match self {
            FileReason::Told(words) => words,
            FileReason::NotText { .. } => "not UTF-8 at line ",
            FileReason::NoMemory => "no memory",
            FileReason::Refused => "the system refuses it",
        }
    }
}
