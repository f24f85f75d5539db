//! Writes messages as texts, in either version.
//!
//! Each function here that can fail errs with `AllocError`, where a request for memory was refused.
ghost use Rattle.std.specs.Prelude.{◌≡◌, ◌++◌, codes, decimal, string_bytes, true, OnOk};
ghost use Rattle.texts.specs.rule.Reads.{pair_text};
ghost use Rattle.message_text.specs.rule.Texts.{holder_text, epoch_text, is_about_revoke, message_text, runs_text};

use crate::edition::{Edition, FirstEdition, SecondEdition};
use crate::operands::{
    ConflictFields, DenyFields, FreedFields, GrantFields, HelloFields, ReleasedFields,
    RequestFields, RevokeFields, TakenFields,
};
use crate::reports::push_runs;
use messages::message::Message::{
    Conflict, Deny, Freed, Grant, Hello, Released, Report, Request, Revoke, Taken,
};
use messages::{EpochNumber, FileNumber, Message, TokenRuns, Version};
use model::Host;
use std::alloc::AllocError;
use texts::text::Text;

/// Adds the text of a message in this version.
pub fn push_message(out: &mut String, version: Version, message: &Message) -> Result<(), AllocError>
    ensures { OnOk result (string_bytes out.new ≡ string_bytes out.old ++ message_text version message.now) }
{
    match version {
        Version::First => push_message_in::<FirstEdition>(out, message),
        Version::Second => push_message_in::<SecondEdition>(out, message),
    }
}

// Adds the text of a message in the version of `V`.
fn push_message_in<V: Edition>(out: &mut String, message: &Message) -> Result<(), AllocError>
    ensures { OnOk result (string_bytes out.new ≡ string_bytes out.old ++ message_text V.version message.now) }
{
    match *message {
        Request {
            file,
            call,
            blocking,
            mode,
            wanted,
        } => push::<RequestFields>(out, "request ", &(file, (call, (blocking, (mode, wanted))))),
        Taken { file, number, call } => {
            push::<TakenFields<V>>(out, "taken ", &(file, (number, call)))
        }
        Grant {
            file,
            number,
            call,
            mode,
            span,
        } => push::<GrantFields<V>>(out, "grant ", &(file, (number, (call, (mode, span))))),
        Revoke { .. } | Released { .. } | Conflict { .. } | Deny { .. } => {
            push_of_revoke::<V>(out, message)
        }
        Freed { file, holder } => push::<FreedFields>(out, "freed ", &(file, holder)),
        Hello {
            file,
            number,
            holder,
        } => push::<HelloFields>(out, "hello ", &(file, (number, holder))),
        Report {
            file,
            number,
            holder,
            ref runs,
        } => push_report(out, &(file, (number, holder)), runs),
    }
}

// Adds the text of a revoke, of one of its answers, or of a deny.
fn push_of_revoke<V: Edition>(out: &mut String, message: &Message) -> Result<(), AllocError>
    requires { is_about_revoke message.now ≡ true }
    ensures { OnOk result (string_bytes out.new ≡ string_bytes out.old ++ message_text V.version message.now) }
{
    match *message {
        Revoke {
            file,
            number,
            holder,
            call,
            mode,
            wanted,
        } => {
            let fields = (file, (number, (holder, (call, (mode, wanted)))));
            push::<RevokeFields<V>>(out, "revoke ", &fields)
        }
        Released {
            file,
            number,
            holder,
            call,
            span,
        } => push::<ReleasedFields<V>>(out, "released ", &(file, (number, (holder, (call, span))))),
        Conflict {
            file,
            number,
            holder,
            call,
            lock,
        } => push::<ConflictFields<V>>(out, "conflict ", &(file, (number, (holder, (call, lock))))),
        Deny {
            file,
            call,
            holder,
            number,
            lock,
        } => push::<DenyFields<V>>(out, "deny ", &(file, (call, (holder, (number, lock))))),
        _ => unreachable!(),
    }
}

/// Adds a fixed text, and fields behind it.
pub fn push<F: Text>(out: &mut String, front: &str, fields: &F::Value) -> Result<(), AllocError>
    ensures { OnOk result (string_bytes out.new ≡ string_bytes out.old ++ (front.now ++ F.text_of fields.now)) }
{
    out.push_str(front)?;
    F::write(fields, out)
}

// Adds a report: the file, the epoch and the holder in `about`, as in a hello, and the runs.
fn push_report(
    out: &mut String,
    about: &(FileNumber, (EpochNumber, Host)),
    runs: &TokenRuns,
) -> Result<(), AllocError>
    ensures { OnOk result (string_bytes out.new ≡ string_bytes out.old ++ (codes "report " ++ pair_text decimal (pair_text epoch_text (pair_text holder_text runs_text)) (about.now.0, (about.now.1.0, (about.now.1.1, runs.now))))) }
{
    push::<HelloFields>(out, "report ", about)?;
    out.push_str(" ")?;
    push_runs(out, runs)
}
