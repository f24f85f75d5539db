//! Numbers in texts: decimal, without leading zeros and without a leading `+`.
//!
//! Each function here that can fail errs with `AllocError`, where a request for memory was refused.
ghost use Rattle.std.specs.Prelude.{◌≡◌, ◌<◌, ◌++◌, ◌∷◌, [], ◌^◌, min, decimal, string_bytes, FitsSigned, MatchBool, OnOk};
ghost use Rattle.std.specs.Fmt.{signed_decimal};
ghost use Rattle.std.specs.Int.{w64};
ghost use Rattle.texts.specs.rule.Reads.{IsPlain, IsPlainSigned, IsWithin, Reads};

use crate::text::{Text, Word};
use crate::unsigned::Unsigned;
use itoa::Buffer;
use std::alloc::AllocError;
use std::marker::PhantomData;

// Whether the word has no `+` in front, and no zero in front of other digits.
fn is_plain(word: &str) -> bool
    ensures { MatchBool result (IsPlain word.now) (IsPlain word.now → ⊥) }
{
    match word.as_bytes().first().copied() {
        Some(b'+') => false,
        Some(b'0') => word.len() == 1,
        _ => true,
    }
}

// The number whose decimal text is that byte alone, if the byte is an ASCII digit.
fn digit_of(byte: u8) -> Option<u64>
    ensures { Reads decimal (λ n. n < 2 ^ 64) (byte ∷ []) result }
{
    if byte.is_ascii_digit() {
        Some(u64::from(byte - b'0'))
    } else {
        None
    }
}

// The number whose decimal text the word is, without leading zeros and without a leading `+`. A
// word of one digit, as most nodes, processes and descriptors are, is read faster alone.
fn natural_of(word: &str) -> Option<u64>
    ensures { Reads decimal (λ n. n < 2 ^ 64) word.now result }
{
    if let [digit] = word.as_bytes() {
        return digit_of(*digit);
    }
    match word.parse::<u64>() {
        Ok(number) => { if is_plain(word) { Some(number) } else { None } }
        Err(_) => None,
    }
}

/// The number from `least` to `most` whose decimal text the word is, without leading zeros and
/// without a leading `+`.
pub fn number_of(word: &str, least: u64, most: u64) -> Option<u64>
    ensures { Reads decimal (IsWithin least most) word.now result }
{
    match natural_of(word) {
        Some(number) => {
            if number < least {
                return None;
            }
            if most < number {
                return None;
            }
            Some(number)
        }
        None => None,
    }
}

// Whether the word has no `+` in front, no zero in front of other digits, and no zero right behind
// a leading `-`.
fn is_plain_signed(word: &str) -> bool
    ensures { MatchBool result (IsPlainSigned word.now) (IsPlainSigned word.now → ⊥) }
{
    match word.as_bytes().get(1).copied() {
        Some(b'0') => word.as_bytes().first().copied() != Some(b'-') && is_plain(word),
        _ => is_plain(word),
    }
}

/// The offset whose decimal text the word is, without leading zeros, without a leading `+`, and
/// with a leading `-` where it is negative; `-0` is no offset.
pub fn offset_of(word: &str) -> Option<i64>
    ensures { Reads signed_decimal (FitsSigned w64) word.now result }
{
    match word.parse::<i64>() {
        Ok(offset) => {
            if is_plain_signed(word) {
                Some(offset)
            } else {
                None
            }
        }
        Err(_) => None,
    }
}

// Adds the decimal text of a number, by a buffer.
#[inline(never)]
fn push_digits(out: &mut String, number: u64) -> Result<(), AllocError>
    ensures { OnOk result (string_bytes out.new ≡ string_bytes out.old ++ decimal number) }
{
    out.push_str(Buffer::new().format(number))
}

/// Adds the decimal text of a number. One digit is added as a character, which is faster than by a
/// buffer.
#[inline]
pub fn push_number(out: &mut String, number: u64) -> Result<(), AllocError>
    ensures { OnOk result (string_bytes out.new ≡ string_bytes out.old ++ decimal number) }
{
    if number < 10 {
        return out.push((b'0' + number as u8) as char);
    }
    push_digits(out, number)
}

/// A number from `LEAST` to `MOST`, as far as the type `T` goes.
pub struct Within<T, const LEAST: u64, const MOST: u64> {
    of: PhantomData<T>,
}

impl<T: Unsigned, const LEAST: u64, const MOST: u64> Text for Within<T, LEAST, MOST> {
    type Value = T;

    ghost text_of = { λ value. decimal (T.number value) };

    ghost is_served = { λ value. IsWithin LEAST (min MOST T.greatest) (T.number value) };

    fn read(text: &str) -> Option<T> {
        match number_of(text, LEAST, MOST) {
            Some(number) => T::of(number),
            None => None,
        }
    }

    fn write(value: &T, out: &mut String) -> Result<(), AllocError> {
        push_number(out, value.number())
    }
}

impl<T: Unsigned, const LEAST: u64, const MOST: u64> Word for Within<T, LEAST, MOST> {
    fn is_one_field() {}
}

/// An offset, which may be negative.
impl Text for i64 {
    type Value = i64;

    ghost text_of = { signed_decimal };

    ghost is_served = { FitsSigned w64 };

    fn read(text: &str) -> Option<i64> {
        offset_of(text)
    }

    fn write(value: &i64, out: &mut String) -> Result<(), AllocError> {
        out.push_str(Buffer::new().format(*value))
    }
}

impl Word for i64 {
    fn is_one_field() {}
}
