//! The operands of each kind of message, as types. F is a file, K the number of a command, R and D
//! the required and the desired span.
use crate::fields::{BlockingWord, EpochName, FileName, LockText, Numbered, SpanText, WantsText};
use crate::names::{CallName, HostName};
use model::Mode;

/// The operands of a request: `F CALL KIND MODE R D`.
pub(crate) type RequestFields = (FileName, (CallName, (BlockingWord, (Mode, WantsText))));

/// The operands of a grant: `F K CALL MODE LO HI`, in version 2 with the epoch before K.
pub(crate) type GrantFields<V> = (FileName, Numbered<V, (CallName, (Mode, SpanText))>);

/// The operands of a revoke: `F K H CALL MODE R D`, in version 2 with the epoch before K.
pub(crate) type RevokeFields<V> = (
    FileName,
    Numbered<V, (HostName, (CallName, (Mode, WantsText)))>,
);

/// The operands of a taken: `F K CALL`, in version 2 with the epoch before K.
pub(crate) type TakenFields<V> = (FileName, Numbered<V, CallName>);

/// The operands of a released: `F K H CALL LO HI`, in version 2 with the epoch before K.
pub(crate) type ReleasedFields<V> = (FileName, Numbered<V, (HostName, (CallName, SpanText))>);

/// The operands of a conflict: `F K H CALL LOCK`, in version 2 with the epoch before K.
pub(crate) type ConflictFields<V> = (FileName, Numbered<V, (HostName, (CallName, LockText))>);

/// The operands of a deny: `F CALL H K LOCK`, in version 2 with the epoch before K.
pub(crate) type DenyFields<V> = (FileName, (CallName, (HostName, Numbered<V, LockText>)));

/// The operands of a freed: `F H`.
pub(crate) type FreedFields = (FileName, HostName);

/// The operands of a hello, and the first ones of a report: `F E H`.
pub(crate) type HelloFields = (FileName, (EpochName, HostName));
