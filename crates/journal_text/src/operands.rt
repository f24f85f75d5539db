//! The operands of lines of journals, as types. N.I is a node in an incarnation.
use crate::replies::ReplyText;
use lockscript::Operation;
use message_text::{CallName, FileField, HostName, PidField};

/// The operands of `call`: `CALL PID OP`.
pub(crate) type CallFields = (CallName, (PidField, Operation));

/// The operands of `interrupt` and `retry`: `N.I PID`.
pub(crate) type ProcessFields = (HostName, PidField);

/// The operands of `learn`: `F N.I`.
pub(crate) type LearnFields = (FileField, HostName);

/// The operands of `reply`: `CALL REPLY`.
pub type AnswerFields = (CallName, ReplyText);
