//! Reading the files that commands read.
ghost use Rattle.std.specs.Prelude.{string_bytes, IfErr, IfOk, Some};
ghost use Rattle.replay.specs.rule.Faults.{IsTextless};
ghost use Rattle.replay.specs.rule.Stores.{SameFiles};

use crate::{Fault, FileReason, Store, StoreError};
use std::alloc::Global;
use std::string::FromUtf8Error;

/// The text of a file.
///
/// # Errors
/// `CannotRead` where the file can't be read or is not UTF-8; `NoMemory` where a request for memory was refused.
pub fn text_of<'a, S: Store>(
    alloc: Global,
    store: &mut S,
    path: &'a str,
) -> Result<String, Fault<'a>>
    ensures text { IfOk result (λ text. S.holds store.old path.now (Some (string_bytes text))) }
    ensures fault { IfErr result (IsTextless (S.holds store.old path.now) (S.ran_short store.new) path.now) }
    ensures files { SameFiles (S.holds store.old) (S.holds store.new) }
{
    let bytes = match store.read(alloc, path) {
        Ok(bytes) => bytes,
        Err(StoreError::NoMemory) => return Err(Fault::NoMemory),
        Err(StoreError::Failed(reason)) => return Err(Fault::CannotRead(path, reason)),
    };
    match String::from_utf8(bytes) {
        Ok(text) => Ok(text),
        Err(error) => Err(Fault::CannotRead(path, not_text_in(&error))),
    }
}

// Where the bytes are not UTF-8.
fn not_text_in(error: &FromUtf8Error<Global>) -> FileReason {
    let valid = error.utf8_error().valid_up_to();
    not_text_behind(error.as_bytes().get(..valid).unwrap_or(&[]))
}

// The place of the first byte that is no text, behind these bytes that are text.
fn not_text_behind(front: &[u8]) -> FileReason {
    let mut line = 1u64;
    let mut column = 1u64;
    for byte in front {
        if *byte == b'\n' {
            line = line.saturating_add(1);
            column = 1;
        } else if begins_character(*byte) {
            column = column.saturating_add(1);
        }
    }
    FileReason::NotText { line, column }
}

// Whether a character of UTF-8 begins with this byte, and does not go on with it.
fn begins_character(byte: u8) -> bool {
    byte & 0xC0 != 0x80
}
