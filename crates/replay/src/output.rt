//! Where texts are written.
ghost use Rattle.std.specs.Prelude.{◌++◌, ◌≤◌, ⊤, ℕ, List, Option, None, codes, length, take, IfOk, OnErr, OnOk};
ghost use Rattle.std.specs.Io.KnownBytes.{Appends, Keeps};
ghost use Rattle.replay.specs.rule.Stores.{AppendsPart, Writes};

use std::io::{ErrorKind, Write};
use thiserror::Error;

/// Text was not written: the writer failed.
#[derive(Clone, Copy, Debug, PartialEq, Eq, Error)]
#[error("cannot write")]
pub struct WriteFailed;

/// Where text is written.
pub trait Output {
    // The bytes that it took, where that is known.
    ghost taken: { Self → Option (List ℕ) } = { λ _. None };

    // A write to it, or a flush, failed.
    ghost has_failed: { Self → Type 0 } = { λ _. ⊤ };

    // What it took has gone on.
    ghost is_flushed: { Self → Type 0 } = { λ _. ⊤ };

    /// Takes all of the bytes.
    ///
    /// # Errors
    /// Where the writer fails, which took a beginning of them.
    fn put(&mut self, bytes: &[u8]) -> Result<(), WriteFailed>
        ensures { Writes (taken self.old) (taken self.new) (has_failed self.new) bytes.now result };

    /// Sends on what it took.
    ///
    /// # Errors
    /// Where the writer fails.
    fn finish(&mut self) -> Result<(), WriteFailed>
        ensures kept { Keeps (taken self.old) (taken self.new) }
        ensures flushed { OnOk result (is_flushed self.new) }
        ensures failed { OnErr result (has_failed self.new) };
}

impl<W: Write> Output for W {
    ghost taken = { λ w. W.contents w };

    fn put(&mut self, bytes: &[u8]) -> Result<(), WriteFailed> {
        let mut rest = bytes;
        for _ in 0..u64::MAX {
            if rest.is_empty() {
                return Ok(());
            }
            let count = write_some(self, rest)?;
            rest = &rest[count..];
        }
        Err(WriteFailed)
    }

    fn finish(&mut self) -> Result<(), WriteFailed> {
        self.flush().map_err(|_| WriteFailed)
    }
}

// Writes some of the bytes, or none where the writer was interrupted.
#[tactic(auto, using(crate::proofs::Outputs::kept_none, crate::proofs::Outputs::none_kept))]
fn write_some<W: Write>(out: &mut W, bytes: &[u8]) -> Result<usize, WriteFailed>
    ensures bound { IfOk result (λ count. count ≤ length bytes.now) }
    ensures taken { IfOk result (λ count. Appends (W.contents out.old) (W.contents out.new) (take count bytes.now)) }
    ensures kept { OnErr result (Keeps (W.contents out.old) (W.contents out.new)) }
{
    match out.write(bytes) {
        Ok(0) => Err(WriteFailed),
        Ok(count) => Ok(count),
        Err(error) if error.kind() == ErrorKind::Interrupted => Ok(0),
        Err(_) => Err(WriteFailed),
    }
}

/// Writes a line of two parts.
///
/// # Errors
/// Where the writer fails, which took a beginning of the line.
pub(crate) fn put_line<O: Output>(out: &mut O, start: &str, end: &str) -> Result<(), WriteFailed>
    ensures { Writes (O.taken out.old) (O.taken out.new) (O.has_failed out.new) (start.now ++ (end.now ++ codes "\n")) result }
{
    out.put(start.as_bytes())?;
    out.put(end.as_bytes())?;
    out.put(b"\n")
}

/// Writes all of the text, and sends it on.
///
/// # Errors
/// Where the writer fails, which took a beginning of the text.
pub fn put_all<O: Output>(out: &mut O, text: &str) -> Result<(), WriteFailed>
    ensures shown { OnOk result (Appends (O.taken out.old) (O.taken out.new) text.now) }
    ensures flushed { OnOk result (O.is_flushed out.new) }
    ensures part { OnErr result (AppendsPart (O.taken out.old) (O.taken out.new) text.now × O.has_failed out.new) }
{
    out.put(text.as_bytes())?;
    out.finish()
}
