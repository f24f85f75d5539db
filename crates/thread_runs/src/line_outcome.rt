//! The outcome of a script's line.
ghost use Rattle.std.specs.Prelude.{◌≡◌};
ghost use Rattle.thread_runs.specs.rule.Runs.{is_cut, is_open, killed_by, open_by, begins, code_of, ends, receipt_of};

use crate::cut::name_at;
use actors::CallError;
use book::Receipt;
use messages::{Entry, Refused};
use model::CallId;

/// The outcome of a script's line, as it is run on threads.
#[derive(Clone, Copy, Debug)]
pub enum LineOutcome {
    /// The call was answered.
    Answered(Receipt),
    /// The call has no receipt, for this reason. Where it is `Killed`, its node took the call.
    Denied(CallError),
    /// The failure or the start was made, as the entry at this position, from 1.
    Made(u32),
    /// The failure or the start was refused, for this reason.
    Refused(Refused),
    /// The line was `settle`, which only waits for the calls of its phase.
    Settled,
    /// The call was made, as the entry at this position, from 1, and was open when the run was ended as stuck.
    Open(u32),
    /// The run was ended before the line's turn came.
    Left,
}

impl LineOutcome {
    /// The receipt of a call that was answered.
    pub fn receipt(&self) -> Option<Receipt>
        ensures { result ≡ receipt_of self.now }
    {
        match self {
            LineOutcome::Answered(receipt) => Some(*receipt),
            _ => None,
        }
    }

    /// The number that listings show for the refusal, if the line was refused.
    pub fn code(&self) -> Option<u16>
        ensures { result ≡ code_of self.now }
    {
        match self {
            LineOutcome::Denied(why) => Some(why.number()),
            LineOutcome::Refused(why) => Some(why.number()),
            _ => None,
        }
    }

    /// The position, from 1, of the entry that the line made, if it made one.
    pub fn begins(&self) -> Option<u32>
        ensures { result ≡ begins self.now }
    {
        match self {
            LineOutcome::Answered(receipt) => Some(receipt.call_at()),
            LineOutcome::Denied(CallError::Killed { call_at }) => Some(*call_at),
            LineOutcome::Made(at) | LineOutcome::Open(at) => Some(*at),
            _ => None,
        }
    }

    /// The position, from 1, of the last entry that belongs to the line: of a call, its reply, or the call itself
    /// where it has no reply. `None` where the line made no entry.
    pub fn ends(&self) -> Option<u32>
        ensures { result ≡ ends self.now }
    {
        match self {
            LineOutcome::Answered(receipt) => Some(receipt.reply_at()),
            LineOutcome::Denied(CallError::Killed { call_at }) => Some(*call_at),
            LineOutcome::Made(at) | LineOutcome::Open(at) => Some(*at),
            _ => None,
        }
    }

    /// Whether the call was open when the run was ended.
    pub(crate) fn is_open(&self) -> bool
        ensures { result ≡ is_open self.now }
    {
        matches!(self, LineOutcome::Open(_))
    }

    /// The name, in these entries, of the line's call, if it was open when the run was ended.
    pub(crate) fn open_call(&self, entries: &[Entry]) -> Option<CallId>
        ensures { result ≡ open_by entries.now self.now }
    {
        match self {
            LineOutcome::Open(at) => name_at(entries, *at),
            _ => None,
        }
    }

    /// The name, in these entries, of the line's call, if it ended without a reply.
    pub(crate) fn killed_call(&self, entries: &[Entry]) -> Option<CallId>
        ensures { result ≡ killed_by entries.now self.now }
    {
        match self {
            LineOutcome::Denied(CallError::Killed { call_at }) => name_at(entries, *call_at),
            _ => None,
        }
    }

    /// Whether only a run that was ended as stuck has such an outcome.
    pub fn is_cut(&self) -> bool
        ensures { result ≡ is_cut self.now }
    {
        matches!(self, LineOutcome::Open(_) | LineOutcome::Left)
    }
}
