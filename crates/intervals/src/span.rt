//! Spans of bytes, and how a lock call names one.
ghost use Rattle.std.specs.Prelude.{◌≡◌, ◌≤◌, IfOk, IfErr, Ok, Err};
ghost use Rattle.intervals.specs.rule.Segment.{seg};

use std::marker::Model;
use thiserror::Error;

/// The greatest offset of a byte, `M`: the greatest `off_t` of 64 bits.
pub const GREATEST: u64 = 9_223_372_036_854_775_807;

/// Consecutive bytes of a file, from `lo` to `hi`, both included. A span has at least one byte, and
/// ends at the greatest offset or below it.
#[derive(Clone, Copy, Debug, PartialEq, Eq, Hash)]
pub struct Span {
    pub lo: u64,
    pub hi: u64,
}

impl Model for Span {
    ghost use Rattle.std.specs.Prelude.{◌≤◌};
    ghost use Rattle.intervals.specs.rule.Bytes.{Range, greatest};

    ghost Value = { Range };

    ghost view = { λ s. record { lo = s.lo; hi = s.hi } };

    ghost invariant = { λ s. (s.lo ≤ s.hi) × (s.hi ≤ greatest) };

    ghost inverse = { λ r. record { lo = r.lo; hi = r.hi } };
}

/// Why a segment names no bytes.
#[derive(Clone, Copy, Debug, PartialEq, Eq, Error)]
pub enum SpanError {
    /// The segment begins before byte 0.
    #[error("the segment begins before byte 0")]
    Invalid,
    /// The segment ends past the greatest offset.
    #[error("the segment ends past the greatest offset")]
    Overflow,
}

impl Span {
    /// The bytes that a lock call names: `len` bytes from `start` on; with `len` 0 all from `start`
    /// to the greatest offset; with a negative `len` the bytes before `start`. (POSIX.1-2017
    /// `fcntl()`, `l_start` and `l_len` with `l_whence` SEEK_SET; that a negative `start` is refused by
    /// itself is this project's choice.)
    ///
    /// # Errors
    /// `Invalid` where `start` is negative or the segment begins before byte 0, which is tested
    /// first; `Overflow` where its last byte is past the greatest offset.
    pub fn from_flock(start: i64, len: i64) -> Result<Span, SpanError>
        ensures ok { IfOk result (λ span. seg start len ≡ Ok span) }
        ensures err { IfErr result (λ error. seg start len ≡ Err error) }
    {
        if start < 0 {
            return Err(SpanError::Invalid);
        }
        let start = start as u64;
        if len == 0 {
            return Ok(Span {
                lo: start,
                hi: GREATEST,
            });
        }
        if len < 0 {
            let back = len.unsigned_abs();
            if back > start {
                return Err(SpanError::Invalid);
            }
            return Ok(Span {
                lo: start - back,
                hi: start - 1,
            });
        }
        let hi = start + (len as u64 - 1);
        if hi > GREATEST {
            return Err(SpanError::Overflow);
        }
        Ok(Span { lo: start, hi })
    }
}
