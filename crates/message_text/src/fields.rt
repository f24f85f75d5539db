//! The fields of messages, as types.
ghost use Rattle.std.specs.Prelude.{◌≡◌, ◌≢◌, ◌++◌, ◌∷◌, ℕ, List, decimal, string_bytes, MatchOption, OnOk, ⊤};
ghost use Rattle.messages.specs.rule.Shapes.{IsRebuilt};
ghost use Rattle.messages.specs.declared.version.Version.TheVariants.{First, Second};
ghost use Rattle.texts.specs.rule.Layout.{space};
ghost use Rattle.texts.specs.rule.Reads.{Both, Reads};
ghost use Rattle.message_text.specs.rule.Texts.{lock_text, AreServedWants, IsCommandNumber, IsFile, IsServedLock, IsServedSpan, command_text, epoch_text, span_text, blocking_text, wants_text};

use crate::edition::Edition;
use crate::names::{OwnerName, push_lock};
use crate::numbers::{Counted, EpochField, FileField, Offset, RebuiltField};
use intervals::span::Span;
use messages::{Blocking, CommandNumber, EpochNumber, FileNumber, Version, Wanted};
use model::{LockInfo, Mode};
use std::alloc::AllocError;
use std::fmt::Write;
use std::marker::PhantomData;
use texts::text::{Text, Word, split_field};

/// The number of a file, as messages name it.
pub(crate) struct FileName;

impl Text for FileName {
    type Value = FileNumber;

    ghost text_of = { decimal };

    ghost is_served = { IsFile };

    fn read(text: &str) -> Option<FileNumber> {
        FileField::read(text).map(FileNumber::of)
    }

    fn write(value: &FileNumber, out: &mut String) -> Result<(), AllocError> {
        write!(out, "{}", value.get())
    }
}

impl Word for FileName {
    fn is_one_field() {}
}

/// The epoch of a rebuilt server.
pub(crate) struct EpochName;

impl Text for EpochName {
    type Value = EpochNumber;

    ghost text_of = { epoch_text };

    ghost is_served = { IsRebuilt };

    fn read(text: &str) -> Option<EpochNumber> {
        RebuiltField::read(text).map(EpochNumber::of)
    }

    fn write(value: &EpochNumber, out: &mut String) -> Result<(), AllocError> {
        write!(out, "{}", value.epoch())
    }
}

impl Word for EpochName {
    fn is_one_field() {}
}

/// The number of a command and the fields behind it: `K` and the fields in version 1; `E K` and the
/// fields, with the epoch of the server that gave the command, in version 2.
pub(crate) struct Numbered<V, B> {
    of: PhantomData<(V, B)>,
}

impl<V: Edition, B: Text> Text for Numbered<V, B> {
    type Value = (CommandNumber, B::Value);

    ghost text_of = { command_text V.version B.text_of };

    ghost is_served = { Both (IsCommandNumber V.version) B.is_served };

    fn read(text: &str) -> Option<(CommandNumber, B::Value)> {
        match V::version() {
            Version::First => of_first_epoch::<B>(text),
            Version::Second => of_epoch::<B>(text),
        }
    }

    fn write(value: &(CommandNumber, B::Value), out: &mut String) -> Result<(), AllocError> {
        push_number(out, V::version(), value.0)?;
        B::write(&value.1, out)
    }
}

// The number of a command of the first epoch, and the fields behind it.
fn of_first_epoch<B: Text>(text: &str) -> Option<(CommandNumber, B::Value)>
    ensures { Reads (command_text First B.text_of) (Both (IsCommandNumber First) B.is_served) text.now result }
{
    let (number, rest) = <(Counted, B)>::read(text)?;
    Some((CommandNumber::of(1, number), rest))
}

// The epoch of a command, its number within the epoch, and the fields behind them.
fn of_epoch<B: Text>(text: &str) -> Option<(CommandNumber, B::Value)>
    ensures { Reads (command_text Second B.text_of) (Both (IsCommandNumber Second) B.is_served) text.now result }
{
    let (epoch, (number, rest)) = <(EpochField, (Counted, B))>::read(text)?;
    Some((CommandNumber::of(epoch, number), rest))
}

// Adds the number of a command, with its epoch in version 2, and a space.
fn push_number(out: &mut String, version: Version, number: CommandNumber) -> Result<(), AllocError>
    ensures { OnOk result ((rest : List ℕ) → string_bytes out.new ++ rest ≡ string_bytes out.old ++ command_text version (λ (bytes : List ℕ). bytes) (number, rest)) }
{
    match version {
        Version::First => {
            let count = number.get();
            write!(out, "{count} ")
        }
        Version::Second => {
            let epoch = number.epoch();
            let number = number.number();
            write!(out, "{epoch} {number} ")
        }
    }
}

/// The value of the first field of a text, and the text behind the space after that field.
pub(crate) fn first_field<A: Word>(text: &str) -> Option<(A::Value, &str)>
    ensures { MatchOption result ((x : A.Value) (rest : List ℕ) → A.is_served x → text.now ≢ A.text_of x ++ space ∷ rest) (λ found. A.is_served found.0 × (text.now ≡ A.text_of found.0 ++ space ∷ found.1.now)) }
{
    A::is_one_field();
    let (word, rest) = split_field(text)?;
    let value = A::read(word)?;
    Some((value, rest))
}

/// Whether a request waits: `now` or `wait`.
pub(crate) struct BlockingWord;

impl Text for BlockingWord {
    type Value = Blocking;

    ghost text_of = { blocking_text };

    ghost is_served = { λ _. ⊤ };

    fn read(text: &str) -> Option<Blocking> {
        match text {
            "now" => Some(Blocking::No),
            "wait" => Some(Blocking::Yes),
            _ => None,
        }
    }

    fn write(value: &Blocking, out: &mut String) -> Result<(), AllocError> {
        match value {
            Blocking::No => out.push_str("now"),
            Blocking::Yes => out.push_str("wait"),
        }
    }
}

impl Word for BlockingWord {
    fn is_one_field() {}
}

/// A span: `LO HI`, its first and its last byte.
pub(crate) struct SpanText;

impl Text for SpanText {
    type Value = Span;

    ghost text_of = { span_text };

    ghost is_served = { IsServedSpan };

    fn read(text: &str) -> Option<Span> {
        let (lo, hi) = <(Offset, Offset)>::read(text)?;
        if hi < lo {
            return None;
        }
        Some(Span { lo, hi })
    }

    fn write(value: &Span, out: &mut String) -> Result<(), AllocError> {
        let lo = value.lo;
        let hi = value.hi;
        write!(out, "{lo} {hi}")
    }
}

/// The two ranges of a request: `LO HI LO HI`, the required span and the desired one, which
/// contains it.
pub(crate) struct WantsText;

impl Text for WantsText {
    type Value = Wanted;

    ghost text_of = { wants_text };

    ghost is_served = { AreServedWants };

    fn read(text: &str) -> Option<Wanted> {
        let (lo, (hi, desired)) = <(Offset, (Offset, SpanText))>::read(text)?;
        if hi < lo {
            return None;
        }
        if lo < desired.lo {
            return None;
        }
        if desired.hi < hi {
            return None;
        }
        let required = Span { lo, hi };
        Some(Wanted::new(required, desired))
    }

    fn write(value: &Wanted, out: &mut String) -> Result<(), AllocError> {
        SpanText::write(&value.required, out)?;
        out.push_str(" ")?;
        SpanText::write(&value.desired, out)
    }
}

/// A lock: `MODE LO HI OWNER`.
pub struct LockText;

impl Text for LockText {
    type Value = LockInfo;

    ghost text_of = { lock_text };

    ghost is_served = { IsServedLock };

    fn read(text: &str) -> Option<LockInfo> {
        let (mode, (lo, (hi, owner))) = <(Mode, (Offset, (Offset, OwnerName)))>::read(text)?;
        if hi < lo {
            return None;
        }
        let span = Span { lo, hi };
        Some(LockInfo { owner, mode, span })
    }

    fn write(value: &LockInfo, out: &mut String) -> Result<(), AllocError> {
        push_lock(out, value)
    }
}
