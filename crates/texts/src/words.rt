//! Words for the values of small types, and the ones of lock calls: kinds of owners, access modes
//! and lock modes.
ghost use Rattle.std.specs.Prelude.{◌≡◌, ℕ, List, true, ⊤};
ghost use Rattle.texts.specs.rule.Reads.{Reads, has_no_space};
ghost use Rattle.texts.specs.rule.Words.{access_text, kind_text, mode_text};

use crate::text::{Text, Word};
use model::{Access, Kind, Mode};
use std::alloc::AllocError;

/// Types whose values are each written as a word.
pub trait Named: Copy + Drop {
    /// The word for a value.
    ghost word_of: { Self → List ℕ };

    /// The value that the word names, if there is one.
    fn of_word(word: &str) -> Option<Self>
        ensures { Reads word_of (λ _. ⊤) word.now result };

    /// The word for the value.
    fn word(self) -> &'static str
        ensures { result.now ≡ word_of self };

    /// The law of the type that no word has a space; the function does nothing.
    fn are_words()
        ensures { (value : Self) → has_no_space (Self.word_of value) ≡ true };
}

/// A value is written as its word.
impl<T: Named> Text for T {
    type Value = T;

    ghost text_of = { T.word_of };

    ghost is_served = { λ _. ⊤ };

    fn read(text: &str) -> Option<T> {
        T::of_word(text)
    }

    fn write(value: &T, out: &mut String) -> Result<(), AllocError> {
        out.push_str(value.word())
    }
}

impl<T: Named> Word for T {
    fn is_one_field() {
        T::are_words();
    }
}

/// Gives the one of these values whose word this is: `value_of!(word, Mode::Read, Mode::Write)`.
/// All values of the type have to be listed.
macro_rules! value_of {
    ($word:ident, $($value:expr),+) => {{
        $(if $word == $value.word() {
            return Some($value);
        })+
        None
    }};
}

/// Gives the word for a value, by cases:
/// `word_of!(mode, Mode::Read => "read", Mode::Write => "write")`.
macro_rules! word_of {
    ($named:expr, $($value:pat => $word:literal),+) => {
        match $named {
            $($value => $word,)+
        }
    };
}

pub(crate) use value_of;
pub(crate) use word_of;

/// The kind of an owner is written as `proc` or `desc`.
impl Named for Kind {
    ghost word_of = { kind_text };

    fn of_word(word: &str) -> Option<Kind> {
        value_of!(word, Kind::OfProcess, Kind::OfDescription)
    }

    fn word(self) -> &'static str {
        word_of!(self, Kind::OfProcess => "proc", Kind::OfDescription => "desc")
    }

    fn are_words() {}
}

/// An access mode is written as `r`, `w` or `rw`.
impl Named for Access {
    ghost word_of = { access_text };

    fn of_word(word: &str) -> Option<Access> {
        value_of!(word, Access::ReadOnly, Access::WriteOnly, Access::ReadWrite)
    }

    fn word(self) -> &'static str {
        word_of!(self, Access::ReadOnly => "r", Access::WriteOnly => "w", Access::ReadWrite => "rw")
    }

    fn are_words() {}
}

/// A lock mode is written as `read` or `write`.
impl Named for Mode {
    ghost word_of = { mode_text };

    fn of_word(word: &str) -> Option<Mode> {
        value_of!(word, Mode::Read, Mode::Write)
    }

    fn word(self) -> &'static str {
        word_of!(self, Mode::Read => "read", Mode::Write => "write")
    }

    fn are_words() {}
}
