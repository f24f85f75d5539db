//! The texts of replies, as listings and journals have them.
//!
//! Each function here that can fail errs with `AllocError`, where a request for memory was refused.
ghost use Rattle.std.specs.Prelude.{◌≡◌, ◌++◌, string_bytes, OnOk};
ghost use Rattle.lockscript.specs.rule.Texts.{reply_text};

use message_text::push_lock;
use model::Reply;
use std::alloc::AllocError;
use texts::number::push_number;

/// Adds the text of a reply.
pub fn push_reply(out: &mut String, reply: &Reply) -> Result<(), AllocError>
    ensures { OnOk result (string_bytes out.new ≡ string_bytes out.old ++ reply_text reply.now) }
{
    match reply {
        Reply::Done => out.push_str("done"),
        Reply::Fd(fd) => {
            out.push_str("fd ")?;
            push_number(out, u64::from(*fd))
        }
        Reply::Again(lock) => {
            out.push_str("again ")?;
            push_lock(out, lock)
        }
        Reply::Free => out.push_str("free"),
        Reply::Blocked(lock) => {
            out.push_str("blocked ")?;
            push_lock(out, lock)
        }
        Reply::Interrupted => out.push_str("interrupted"),
        Reply::NoProcess => out.push_str("no-process"),
        Reply::Exists => out.push_str("exists"),
        Reply::BadFd => out.push_str("bad-fd"),
        Reply::TooManyFiles => out.push_str("too-many-files"),
        Reply::NoLocks => out.push_str("no-locks"),
        Reply::Invalid => out.push_str("invalid"),
        Reply::Overflow => out.push_str("overflow"),
    }
}
