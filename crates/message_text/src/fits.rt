//! Laws that say what the types of a message's parts guarantee; each is the contract of a function
//! that does nothing.
ghost use Rattle.model.specs.rule.Limits.{IsCall};
ghost use Rattle.messages.specs.rule.Shapes.{IsCommand, IsRebuilt};
ghost use Rattle.messages.specs.declared.version.Version.TheVariants.{Second};
ghost use Rattle.message_text.specs.rule.Texts.{AreServedRuns, AreServedWants, IsHolder, IsServedLock, IsServedMessage, IsServedSpan};

use intervals::span::Span;
use messages::message::Message::{
    Conflict, Deny, Freed, Grant, Hello, Released, Report, Request, Revoke, Taken,
};
use messages::{CommandNumber, EpochNumber, Message, TokenRun, TokenRuns, Wanted};
use model::{CallId, Host, LockInfo};

/// A call is within its limits.
pub fn call_fits(call: CallId)
    ensures { IsCall call }
{
    let _node = call.node;
}

fn command_fits(command: CommandNumber, call: CallId)
    ensures { IsCommand command × IsCall call }
{
    let _number = command.get();
    call_fits(call);
}

fn host_fits(host: Host)
    ensures { IsHolder host }
{
    let _node = host.node;
}

fn span_fits(span: Span)
    ensures { IsServedSpan span }
{
    let _lo = span.lo;
}

fn wants_fit(wanted: Wanted)
    ensures { AreServedWants wanted }
{
    span_fits(wanted.required);
    span_fits(wanted.desired);
}

/// A lock is within its limits.
pub fn lock_fits(lock: LockInfo)
    ensures { IsServedLock lock }
{
    span_fits(lock.span);
    let _node = lock.owner.node;
}

fn epoch_fits(number: EpochNumber)
    ensures { IsRebuilt number }
{
    let _number = number.get();
}

fn run_fits(run: &TokenRun)
    ensures { IsServedSpan run.now.span }
{
    span_fits(run.span);
}

fn runs_fit(runs: &TokenRuns)
    ensures { AreServedRuns runs.now }
{
    for run in runs.as_slice() {
        run_fits(run);
    }
}

/// A message is within its limits in version 2; so it has a text from which it is read.
pub fn message_fits(message: &Message)
    ensures { IsServedMessage Second message.now }
{
    let _file = message.file();
    host_fits(message.host());
    match message {
        Request { call, .. } => call_fits(*call),
        Grant { number, call, .. }
        | Revoke { number, call, .. }
        | Taken { number, call, .. }
        | Released { number, call, .. }
        | Conflict { number, call, .. }
        | Deny { number, call, .. } => command_fits(*number, *call),
        Freed { .. } => (),
        Hello { number, .. } | Report { number, .. } => epoch_fits(*number),
    }
    match message {
        Request { wanted, .. } | Revoke { wanted, .. } => wants_fit(*wanted),
        Grant { span, .. } | Released { span, .. } => span_fits(*span),
        Conflict { lock, .. } => lock_fits(*lock),
        Deny { holder, lock, .. } => {
            host_fits(*holder);
            lock_fits(*lock);
        }
        Report { runs, .. } => runs_fit(runs),
        Taken { .. } | Freed { .. } | Hello { .. } => (),
    }
}
