//! The two modes of locks, and when two locks exclude each other.
use intervals::span_map::Exact;

/// How a byte is locked. A read lock is shared, a write lock is exclusive. (POSIX.1-2017
/// `fcntl()`, F_RDLCK and F_WRLCK.)
#[derive(Clone, Copy, Debug, PartialEq, Eq, Hash)]
pub enum Mode {
    Read,
    Write,
}

impl Mode {
    ghost use Rattle.std.specs.Prelude.{◌≡◌};
    ghost use Rattle.model.specs.rule.Locks.{bar_of, excludes};

    /// The mode of the locks that may not stand on a byte beside a lock of this mode; `None` where
    /// locks of neither mode may.
    pub fn bar(self) -> Option<Mode>
        ensures { result ≡ bar_of self }
    {
        match self {
            Mode::Read => Some(Mode::Write),
            Mode::Write => None,
        }
    }

    /// Whether locks of these two modes, held by two owners, may not stand on one byte.
    pub fn excludes(self, other: Mode) -> bool
        ensures { result ≡ excludes self other }
    {
        self == Mode::Write || other == Mode::Write
    }
}

impl Exact for Mode {
    ghost use Rattle.model.specs.declared.mode.Mode.TheVariants.{Read, Write};
    ghost use Rattle.std.specs.Prelude.{refl};
    ghost use Rattle.std.proofs.lemmas.Bool.{false≢true};

    ghost exact = { elim [ Read ↦ elim [ Read ↦ λ _. refl | Write ↦ λ h. absurd (false≢true h) ] | Write ↦ elim [ Read ↦ λ h. absurd (false≢true h) | Write ↦ λ _. refl ] ] };
}
