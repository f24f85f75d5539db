//! What a lock call is about: its file, the owner of the lock, and the bytes.
ghost use Rattle.std.specs.Prelude.{◌≡◌, Some, Ok, IfOk};
ghost use Rattle.model.specs.rule.Limits.{IsNumber, most_descriptions};
ghost use Rattle.model.specs.rule.Table.{permits, allows, owner_of, target_at};
ghost use Rattle.fcntl_table.specs.rule.Tables.{IsOwn, IsSpan};

use intervals::span::{Span, SpanError};
use model::{Access, Kind, LockTarget, Mode, Opened, Owner, Process, Reply};

// Whether a descriptor with this access may be used for a lock in this mode.
fn permits(access: Access, mode: Mode) -> bool
    ensures { result ≡ permits access mode }
{
    match mode {
        Mode::Read => access != Access::WriteOnly,
        Mode::Write => access != Access::ReadOnly,
    }
}

// Whether a descriptor with this access may be used for the mode that the call needs, if it needs
// one.
fn allows(access: Access, need: Option<Mode>) -> bool
    ensures { result ≡ allows access need }
{
    match need {
        Some(mode) => permits(access, mode),
        None => true,
    }
}

// The owner of the lock: the process, or the description that the descriptor refers to.
fn owner_of(process: Process, kind: Kind, opened: Opened) -> Owner
    requires { IsNumber most_descriptions opened.description }
    ensures value { result ≡ owner_of process kind opened }
    ensures own { IsOwn process.node process.incarnation result }
{
    let number = match kind {
        Kind::OfProcess => process.pid,
        Kind::OfDescription => opened.description,
    };
    Owner {
        node: process.node,
        incarnation: process.incarnation,
        kind,
        number,
    }
}

/// What a lock call of the process is about, by what its descriptor refers to and by the segment
/// that it names.
///
/// # Errors
/// The reply of the first test that fails: `Invalid` or `Overflow` for the segment, `BadFd` for a
/// descriptor that isn't open for the mode that the call needs.
pub fn target_at(
    process: Process,
    need: Option<Mode>,
    kind: Kind,
    opened: Opened,
    segment: Result<Span, SpanError>,
) -> Result<LockTarget, Reply>
    requires { IsNumber most_descriptions opened.description }
    ensures value { result ≡ target_at process need kind (Some opened) segment }
    ensures own { IfOk result (λ target. IsOwn process.node process.incarnation target.owner) }
    ensures file { IfOk result (λ target. target.file ≡ opened.file) }
    ensures span { IfOk result (λ target. IsSpan target.span) }
{
    let span = match segment {
        Ok(span) => span,
        Err(SpanError::Invalid) => return Err(Reply::Invalid),
        Err(SpanError::Overflow) => return Err(Reply::Overflow),
    };
    let _ = &span.lo; // tells the proof that a span has a byte and ends at the greatest offset or below it
    if !allows(opened.access, need) {
        return Err(Reply::BadFd);
    }
    Ok(LockTarget {
        file: opened.file,
        owner: owner_of(process, kind, opened),
        span,
    })
}
