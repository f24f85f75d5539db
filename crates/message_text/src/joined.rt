//! Fields of two parts: a number, a mark, and a second part.
ghost use Rattle.std.specs.Prelude.{◌≡◌, ◌≢◌, ◌<◌, ◌∷◌, ◌++◌, ℕ, List, MatchOption};
ghost use Rattle.texts.specs.rule.Reads.{Both, Lacks, joined_text};
ghost use Rattle.message_text.specs.rule.Texts.{dot};
ghost use Rattle.message_text.specs.code.Reports.{IsNoDigit, at_sign};

use std::alloc::AllocError;
use std::marker::PhantomData;
use texts::number::Within;
use texts::text::Text;
use texts::unsigned::Unsigned;

/// A character that is no digit and stands between two parts.
pub(crate) trait Separator {
    ghost mark: { ℕ };

    fn mark() -> char
        ensures value { result ≡ mark }
        ensures ascii { mark < 128 }
        ensures no_digit { IsNoDigit mark };
}

pub(crate) struct Dot;

impl Separator for Dot {
    ghost mark = { dot };

    fn mark() -> char {
        '.'
    }
}

pub(crate) struct AtSign;

impl Separator for AtSign {
    ghost mark = { at_sign };

    fn mark() -> char {
        '@'
    }
}

/// A way to write values in digits only.
pub(crate) trait Digits: Text {
    /// The law of the type that the text of a value has only digits; the function does nothing.
    fn are_digits()
        ensures { (value : Self.Value) → Self.is_served value → (byte : ℕ) → IsNoDigit byte → Lacks byte (Self.text_of value) };
}

impl<T: Unsigned, const LEAST: u64, const MOST: u64> Digits for Within<T, LEAST, MOST> {
    fn are_digits() {}
}

/// A value of `A`, the mark `M`, and a value of `B`.
pub(crate) struct Joined<A, M, B> {
    of: PhantomData<(A, M, B)>,
}

impl<A: Digits, M: Separator, B: Text> Text for Joined<A, M, B> {
    type Value = (A::Value, B::Value);

    ghost text_of = { joined_text M.mark A.text_of B.text_of };

    ghost is_served = { Both A.is_served B.is_served };

    fn read(text: &str) -> Option<(A::Value, B::Value)> {
        A::are_digits();
        match split_mark::<M>(text) {
            Some((first, rest)) => A::read(first).zip(B::read(rest)),
            None => None,
        }
    }

    fn write(value: &(A::Value, B::Value), out: &mut String) -> Result<(), AllocError> {
        A::write(&value.0, out)?;
        out.push(M::mark())?;
        B::write(&value.1, out)
    }
}

// The text before the first mark, and the text behind it.
fn split_mark<M: Separator>(text: &str) -> Option<(&str, &str)>
    ensures no_digit { IsNoDigit M.mark }
    ensures parts { MatchOption result
        ((front rest : List ℕ) → Lacks M.mark front → text.now ≢ front ++ M.mark ∷ rest)
        (λ parts. Lacks M.mark parts.0.now × (text.now ≡ parts.0.now ++ M.mark ∷ parts.1.now)) }
{
    text.split_once(M::mark())
}
