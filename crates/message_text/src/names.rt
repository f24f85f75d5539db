//! The names of nodes, calls, owners and servers, and their texts.
ghost use Rattle.std.specs.Prelude.{◌≡◌, ◌++◌, codes, string_bytes, OnOk};
ghost use Rattle.model.specs.rule.Limits.{IsCall, IsOwner};
ghost use Rattle.texts.specs.rule.Reads.{Reads};
ghost use Rattle.message_text.specs.rule.Texts.{call_text, holder_text, host_text, lock_text, owner_letter, owner_text, server_text, IsHolder};
ghost use Rattle.message_text.specs.code.Reports.{AreServerParts};

use crate::joined::{AtSign, Dot, Joined};
use crate::numbers::{
    Counted, DescriptionField, EpochField, FileField, IncarnationField, NodeField, PidField,
};
use model::{CallId, Host, Kind, LockInfo, Mode, Owner};
use std::alloc::AllocError;
use texts::number::push_number;
use texts::text::{Text, Word, after};
use texts::words::Named;

// The letter of a kind of owner: `p` for a process, `d` for an open file description.
fn letter_of(kind: Kind) -> &'static str
    ensures { result.now ≡ owner_letter kind }
{
    match kind {
        Kind::OfProcess => "p",
        Kind::OfDescription => "d",
    }
}

/// Adds the name of a node in an incarnation, `N.I`.
pub fn push_host(out: &mut String, node: u8, incarnation: u16) -> Result<(), AllocError>
    ensures { OnOk result (string_bytes out.new ≡ string_bytes out.old ++ host_text node incarnation) }
{
    push_number(out, u64::from(node))?;
    out.push_str(".")?;
    push_number(out, u64::from(incarnation))
}

/// Adds the name of a call, `N.I.C`.
pub fn push_call(out: &mut String, call: &CallId) -> Result<(), AllocError>
    ensures { OnOk result (string_bytes out.new ≡ string_bytes out.old ++ call_text call.now) }
{
    push_host(out, call.node, call.incarnation)?;
    out.push_str(".")?;
    push_number(out, u64::from(call.number))
}

/// Adds the name of an owner: `pPID@N.I` for a process, `dNUMBER@N.I` for an open file description.
pub fn push_owner(out: &mut String, owner: &Owner) -> Result<(), AllocError>
    ensures { OnOk result (string_bytes out.new ≡ string_bytes out.old ++ owner_text owner.now) }
{
    out.push_str(letter_of(owner.kind))?;
    push_number(out, u64::from(owner.number))?;
    out.push_str("@")?;
    push_host(out, owner.node, owner.incarnation)
}

/// Adds the text of a lock, `MODE LO HI OWNER`.
pub fn push_lock(out: &mut String, lock: &LockInfo) -> Result<(), AllocError>
    ensures { OnOk result (string_bytes out.new ≡ string_bytes out.old ++ lock_text lock.now) }
{
    out.push_str(Mode::word(lock.mode))?;
    out.push_str(" ")?;
    push_number(out, lock.span.lo)?;
    out.push_str(" ")?;
    push_number(out, lock.span.hi)?;
    out.push_str(" ")?;
    push_owner(out, &lock.owner)
}

/// A node in an incarnation: `N.I`.
pub struct HostName;

impl Text for HostName {
    type Value = Host;

    ghost text_of = { holder_text };

    ghost is_served = { IsHolder };

    fn read(text: &str) -> Option<Host> {
        let (node, incarnation) = <Joined<NodeField, Dot, IncarnationField>>::read(text)?;
        Some(Host { node, incarnation })
    }

    fn write(value: &Host, out: &mut String) -> Result<(), AllocError> {
        push_host(out, value.node, value.incarnation)
    }
}

impl Word for HostName {
    fn is_one_field() {}
}

/// The file and the epoch of its server that `F.E` names.
pub fn server_of(word: &str) -> Option<(u16, u16)>
    ensures { Reads server_text AreServerParts word.now result }
{
    <Joined<FileField, Dot, EpochField>>::read(word)
}

// The three parts of the name of a call, `N.I.C`.
type CallParts = Joined<NodeField, Dot, Joined<IncarnationField, Dot, Counted>>;

/// The call that `N.I.C` names.
pub fn call_of(word: &str) -> Option<CallId>
    ensures { Reads call_text IsCall word.now result }
{
    let (node, (incarnation, number)) = CallParts::read(word)?;
    Some(CallId {
        node,
        incarnation,
        number,
    })
}

/// A call: `N.I.C`.
pub struct CallName;

impl Text for CallName {
    type Value = CallId;

    ghost text_of = { call_text };

    ghost is_served = { IsCall };

    fn read(text: &str) -> Option<CallId> {
        call_of(text)
    }

    fn write(value: &CallId, out: &mut String) -> Result<(), AllocError> {
        push_call(out, value)
    }
}

impl Word for CallName {
    fn is_one_field() {}
}

/// An owner: `pPID@N.I` or `dNUMBER@N.I`.
pub struct OwnerName;

impl Text for OwnerName {
    type Value = Owner;

    ghost text_of = { owner_text };

    ghost is_served = { IsOwner };

    fn read(text: &str) -> Option<Owner> {
        if let Some(rest) = after(text, "p") {
            return process_owner(rest);
        }
        match after(text, "d") {
            Some(rest) => description_owner(rest),
            None => None,
        }
    }

    fn write(value: &Owner, out: &mut String) -> Result<(), AllocError> {
        push_owner(out, value)
    }
}

// The owner named by `p` and this text behind it.
fn process_owner(rest: &str) -> Option<Owner>
    ensures { Reads owner_text IsOwner (codes "p" ++ rest.now) result }
{
    let (number, host) = <Joined<PidField, AtSign, HostName>>::read(rest)?;
    Some(Owner {
        node: host.node,
        incarnation: host.incarnation,
        kind: Kind::OfProcess,
        number,
    })
}

// The owner named by `d` and this text behind it.
fn description_owner(rest: &str) -> Option<Owner>
    ensures { Reads owner_text IsOwner (codes "d" ++ rest.now) result }
{
    let (number, host) = <Joined<DescriptionField, AtSign, HostName>>::read(rest)?;
    Some(Owner {
        node: host.node,
        incarnation: host.incarnation,
        kind: Kind::OfDescription,
        number,
    })
}
