//! Types as ways to write values, and functions that split texts into fields.
ghost use Rattle.std.specs.Prelude.{◌≡◌, ◌≢◌, ◌<◌, ◌++◌, ◌∷◌, ℕ, List, MatchOption, OnOk, string_bytes, true};
ghost use Rattle.texts.specs.rule.Layout.{space};
ghost use Rattle.texts.specs.rule.Reads.{Both, Lacks, Reads, has_no_space, pair_text};

use memchr::memchr;
use std::alloc::AllocError;

/// A way to write values: as one field of a line, or as several.
pub trait Text {
    /// The type of the values.
    type Value: Drop;

    /// The text of a value.
    ghost text_of: { Self.Value → List ℕ };

    /// The condition that a value is within the limits in which it can be written.
    ghost is_served: { Self.Value → Type 0 };

    /// The value within the limits whose text this is, if there is one.
    fn read(text: &str) -> Option<Self::Value>
        ensures { Reads text_of is_served text.now result };

    /// Adds the text of the value.
    fn write(value: &Self::Value, out: &mut String) -> Result<(), AllocError>
        ensures { OnOk result (string_bytes out.new ≡ string_bytes out.old ++ text_of value.now) };
}

/// A way to write values as one field.
pub trait Word: Text {
    /// The law of the type that no text of a value has a space; the function does nothing.
    fn is_one_field()
        ensures { (value : Self.Value) → Self.is_served value → has_no_space (Self.text_of value) ≡ true };
}

/// The text before the first `mark`, an ASCII character, and the text behind it. For short fields
/// `memchr` is faster than `split_once`.
pub fn split_at_first(text: &str, mark: u8) -> Option<(&str, &str)>
    requires { mark < 128 }
    ensures { MatchOption result (Lacks mark text.now)
        (λ parts. Lacks mark parts.0.now × (text.now ≡ parts.0.now ++ mark ∷ parts.1.now)) }
{
    let at = memchr(mark, text.as_bytes())?;
    Some((&text[..at], &text[at + 1..]))
}

/// The first field of a text, and the text behind the space after it.
pub fn split_field(text: &str) -> Option<(&str, &str)>
    ensures { MatchOption result
        ((word rest : List ℕ) → Lacks space word → text.now ≢ word ++ space ∷ rest)
        (λ parts. Lacks space parts.0.now × (text.now ≡ parts.0.now ++ space ∷ parts.1.now)) }
{
    split_at_first(text, b' ')
}

/// The text behind `front`, if `text` begins with it.
pub fn after<'a>(text: &'a str, front: &str) -> Option<&'a str>
    ensures { MatchOption result ((rest : List ℕ) → text.entry.now ≢ front.now ++ rest) (λ rest. text.entry.now ≡ front.now ++ rest.now) }
{
    text.strip_prefix(front)
}

/// A pair is written as a field, a space, and the text of the second value.
impl<A: Word, B: Text> Text for (A, B) {
    type Value = (A::Value, B::Value);

    ghost text_of = { pair_text A.text_of B.text_of };

    ghost is_served = { Both A.is_served B.is_served };

    fn read(text: &str) -> Option<(A::Value, B::Value)> {
        A::is_one_field();
        match split_field(text) {
            Some((word, rest)) => A::read(word).zip(B::read(rest)),
            None => None,
        }
    }

    fn write(value: &(A::Value, B::Value), out: &mut String) -> Result<(), AllocError> {
        A::write(&value.0, out)?;
        out.push_str(" ")?;
        B::write(&value.1, out)
    }
}
