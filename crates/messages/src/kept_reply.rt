//! Replies as entries of the journal keep them.
//!
//! Each function here that can fail errs with `AllocError`, where a request for memory was refused.
ghost use Rattle.std.specs.Prelude.{◌≡◌, None, IfOk};
ghost use Rattle.messages.specs.code.KeptParts.{reply_of};

use model::{CallId, Reply};
use std::alloc::{AllocError, Global};
use std::marker::Model;

// Most entries have no reply, or the reply `Done`: these need no memory of their own.
#[derive(Drop)]
enum CompactReply {
    Nothing,
    Done(CallId),
    Other(Box<(CallId, Reply)>),
}

/// The call that an entry answers with its reply, or none. Any reply but `Done` has memory of its own. Contracts see the call and the reply.
#[derive(Drop)]
pub struct KeptReply {
    kept: CompactReply,
}

impl Model for KeptReply {
    ghost use Rattle.std.specs.Prelude.{Option};
    ghost use Rattle.model.specs.declared.reply.Reply.{Reply};
    ghost use Rattle.model.specs.declared.call.CallId.{CallId};
    ghost use Rattle.messages.specs.code.KeptParts.{reply_of};

    ghost Value = { Option (CallId × Reply) };

    ghost view = { λ r. reply_of r.kept };
}

impl KeptReply {
    /// No reply. It takes no memory.
    pub fn nothing() -> KeptReply
        ensures { result ≡ None }
    {
        KeptReply {
            kept: CompactReply::Nothing,
        }
    }

    /// Stores this reply to this call, or none.
    pub fn new(alloc: Global, reply: Option<(CallId, Reply)>) -> Result<KeptReply, AllocError>
        ensures { IfOk result (λ kept. kept ≡ reply) }
    {
        let kept = match reply {
            None => CompactReply::Nothing,
            Some((call, Reply::Done)) => CompactReply::Done(call),
            Some(other) => CompactReply::Other(Box::new(alloc, other)?),
        };
        Ok(KeptReply { kept })
    }

    /// The call and its reply.
    pub(crate) fn get(&self) -> Option<(CallId, Reply)>
        ensures { result ≡ self.now }
    {
        match &self.kept {
            CompactReply::Nothing => None,
            CompactReply::Done(call) => Some((*call, Reply::Done)),
            CompactReply::Other(answer) => Some(**answer),
        }
    }
}
