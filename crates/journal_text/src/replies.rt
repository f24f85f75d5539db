//! The replies in journals, and their texts.
ghost use Rattle.texts.specs.rule.Reads.{Reads};
ghost use Rattle.lockscript.specs.rule.Texts.{reply_text};
ghost use Rattle.journal_text.specs.rule.Served.{IsServedReply};

use lockscript::push_reply;
use message_text::{DescriptorField, LockText};
use model::Reply;
use std::alloc::AllocError;
use texts::text::{Text, split_field};

/// The reply whose text this is, if there is one.
pub fn reply_of(text: &str) -> Option<Reply>
    ensures { Reads reply_text IsServedReply text.now result }
{
    match split_field(text) {
        Some((word, operand)) => match word {
            "fd" => DescriptorField::read(operand).map(|fd| Reply::Fd(fd)),
            "again" => LockText::read(operand).map(|lock| Reply::Again(lock)),
            "blocked" => LockText::read(operand).map(|lock| Reply::Blocked(lock)),
            _ => None,
        },
        None => match text {
            "done" => Some(Reply::Done),
            "free" => Some(Reply::Free),
            "interrupted" => Some(Reply::Interrupted),
            "no-process" => Some(Reply::NoProcess),
            "exists" => Some(Reply::Exists),
            "bad-fd" => Some(Reply::BadFd),
            "too-many-files" => Some(Reply::TooManyFiles),
            "no-locks" => Some(Reply::NoLocks),
            "invalid" => Some(Reply::Invalid),
            "overflow" => Some(Reply::Overflow),
            _ => None,
        },
    }
}

/// A reply, as a field of a line.
pub struct ReplyText;

impl Text for ReplyText {
    type Value = Reply;

    ghost text_of = { reply_text };

    ghost is_served = { IsServedReply };

    fn read(text: &str) -> Option<Reply> {
        reply_of(text)
    }

    fn write(value: &Reply, out: &mut String) -> Result<(), AllocError> {
        push_reply(out, value)
    }
}
