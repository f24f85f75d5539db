//! Reads messages from their texts, in either version.
ghost use Rattle.std.specs.Prelude.{◌++◌, codes};
ghost use Rattle.texts.specs.rule.Reads.{Reads};
ghost use Rattle.message_text.specs.rule.Texts.{IsServedMessage, message_text};

use crate::edition::{Edition, FirstEdition, SecondEdition};
use crate::fields::{EpochName, FileName, first_field};
use crate::names::HostName;
use crate::operands::{
    ConflictFields, DenyFields, FreedFields, GrantFields, HelloFields, ReleasedFields,
    RequestFields, RevokeFields, TakenFields,
};
use crate::reports::are_runs;
use crate::written_message::WrittenMessage;
use messages::{Message, Version};
use texts::text::{Text, split_field};

/// The message whose text in this version this is, if there is one.
pub fn message_of(version: Version, text: &str) -> Option<WrittenMessage<'_>>
    ensures { Reads (message_text version) (IsServedMessage version) text.now result }
{
    match version {
        Version::First => message_in::<FirstEdition>(text),
        Version::Second => message_in::<SecondEdition>(text),
    }
}

/// The message whose text in the version of `V` this is, if there is one.
pub fn message_in<V: Edition>(text: &str) -> Option<WrittenMessage<'_>>
    ensures { Reads (message_text V.version) (IsServedMessage V.version) text.now result }
{
    let (word, operands) = split_field(text)?;
    match word {
        "grant" => grant_of::<V>(operands),
        "revoke" => revoke_of::<V>(operands),
        "deny" => deny_of::<V>(operands),
        "hello" => hello_of::<V>(operands),
        "report" => report_of::<V>(operands),
        "request" => request_of::<V>(operands),
        "taken" => taken_of::<V>(operands),
        "conflict" => conflict_of::<V>(operands),
        "freed" => freed_of::<V>(operands),
        "released" => released_of::<V>(operands),
        _ => None,
    }
}

// The grant with these operands.
fn grant_of<V: Edition>(operands: &str) -> Option<WrittenMessage<'_>>
    ensures { Reads (message_text V.version) (IsServedMessage V.version) (codes "grant " ++ operands.now) result }
{
    let (file, (number, (call, (mode, span)))) = <GrantFields<V>>::read(operands)?;
    Some(WrittenMessage::whole(Message::Grant {
        file,
        number,
        call,
        mode,
        span,
    }))
}

// The revoke with these operands.
fn revoke_of<V: Edition>(operands: &str) -> Option<WrittenMessage<'_>>
    ensures { Reads (message_text V.version) (IsServedMessage V.version) (codes "revoke " ++ operands.now) result }
{
    let (file, (number, (holder, (call, (mode, wanted))))) = <RevokeFields<V>>::read(operands)?;
    Some(WrittenMessage::whole(Message::Revoke {
        file,
        number,
        holder,
        call,
        mode,
        wanted,
    }))
}

// The deny with these operands.
fn deny_of<V: Edition>(operands: &str) -> Option<WrittenMessage<'_>>
    ensures { Reads (message_text V.version) (IsServedMessage V.version) (codes "deny " ++ operands.now) result }
{
    let (file, (call, (holder, (number, lock)))) = <DenyFields<V>>::read(operands)?;
    Some(WrittenMessage::whole(Message::Deny {
        file,
        call,
        holder,
        number,
        lock,
    }))
}

// The hello with these operands.
fn hello_of<V: Edition>(operands: &str) -> Option<WrittenMessage<'_>>
    ensures { Reads (message_text V.version) (IsServedMessage V.version) (codes "hello " ++ operands.now) result }
{
    if !V::version().may_rebuild() {
        return None;
    }
    let (file, (number, holder)) = HelloFields::read(operands)?;
    Some(WrittenMessage::whole(Message::Hello {
        file,
        number,
        holder,
    }))
}

// The report with these operands.
fn report_of<V: Edition>(operands: &str) -> Option<WrittenMessage<'_>>
    ensures { Reads (message_text V.version) (IsServedMessage V.version) (codes "report " ++ operands.now) result }
{
    if !V::version().may_rebuild() {
        return None;
    }
    let Some((file, about)) = first_field::<FileName>(operands) else {
        return None;
    };
    let Some((number, held)) = first_field::<EpochName>(about) else {
        return None;
    };
    let Some((holder, runs)) = first_field::<HostName>(held) else {
        return None;
    };
    if !are_runs(runs) {
        return None;
    }
    Some(WrittenMessage::report(file, number, holder, runs))
}

// The request with these operands.
fn request_of<V: Edition>(operands: &str) -> Option<WrittenMessage<'_>>
    ensures { Reads (message_text V.version) (IsServedMessage V.version) (codes "request " ++ operands.now) result }
{
    let (file, (call, (blocking, (mode, wanted)))) = RequestFields::read(operands)?;
    Some(WrittenMessage::whole(Message::Request {
        file,
        call,
        blocking,
        mode,
        wanted,
    }))
}

// The taken with these operands.
fn taken_of<V: Edition>(operands: &str) -> Option<WrittenMessage<'_>>
    ensures { Reads (message_text V.version) (IsServedMessage V.version) (codes "taken " ++ operands.now) result }
{
    let (file, (number, call)) = <TakenFields<V>>::read(operands)?;
    Some(WrittenMessage::whole(Message::Taken { file, number, call }))
}

// The conflict with these operands.
fn conflict_of<V: Edition>(operands: &str) -> Option<WrittenMessage<'_>>
    ensures { Reads (message_text V.version) (IsServedMessage V.version) (codes "conflict " ++ operands.now) result }
{
    let (file, (number, (holder, (call, lock)))) = <ConflictFields<V>>::read(operands)?;
    Some(WrittenMessage::whole(Message::Conflict {
        file,
        number,
        holder,
        call,
        lock,
    }))
}

// The freed with these operands.
fn freed_of<V: Edition>(operands: &str) -> Option<WrittenMessage<'_>>
    ensures { Reads (message_text V.version) (IsServedMessage V.version) (codes "freed " ++ operands.now) result }
{
    let (file, holder) = FreedFields::read(operands)?;
    Some(WrittenMessage::whole(Message::Freed { file, holder }))
}

// The released with these operands.
fn released_of<V: Edition>(operands: &str) -> Option<WrittenMessage<'_>>
    ensures { Reads (message_text V.version) (IsServedMessage V.version) (codes "released " ++ operands.now) result }
{
    let (file, (number, (holder, (call, span)))) = <ReleasedFields<V>>::read(operands)?;
    Some(WrittenMessage::whole(Message::Released {
        file,
        number,
        holder,
        call,
        span,
    }))
}
