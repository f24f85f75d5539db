//! Reads the events of journals from their texts.
ghost use Rattle.std.specs.Prelude.{◌≡◌, true};
ghost use Rattle.messages.specs.rule.Shapes.{may_rebuild};
ghost use Rattle.texts.specs.rule.Reads.{Reads};
ghost use Rattle.message_text.specs.rule.Texts.{server_text};
ghost use Rattle.message_text.specs.code.Reports.{AreServerParts};
ghost use Rattle.journal_text.specs.rule.Events.{IsServedEvent, named_text};

use crate::named_event::NamedEvent;
use crate::named_event::NamedEvent::{
    Call, Declare, Deliver, FailServer, Interrupt, Learn, Resend, Restart, Retry, StartServer,
};
use crate::operands::{CallFields, LearnFields, ProcessFields};
use message_text::{Edition, FileField, HostName, message_in, server_of};
use texts::text::{Text, split_field};

/// The event, with the names in it, whose text in the version of `V` this is.
pub fn event_in<V: Edition>(text: &str) -> Option<NamedEvent<'_>>
    ensures { Reads (named_text V.version) (IsServedEvent V.version) text.now result }
{
    let (word, operands) = split_field(text)?;
    match word {
        "call" => CallFields::read(operands).map(|(call, (pid, op))| Call { call, pid, op }),
        "deliver" => message_in::<V>(operands).map(|message| Deliver(message)),
        "interrupt" => ProcessFields::read(operands).map(|(host, pid)| Interrupt { host, pid }),
        "retry" => ProcessFields::read(operands).map(|(host, pid)| Retry { host, pid }),
        "resend" => FileField::read(operands).map(|file| Resend { file }),
        "declare" => HostName::read(operands).map(|host| Declare { host }),
        "restart" => HostName::read(operands).map(|host| Restart { host }),
        "learn" => LearnFields::read(operands).map(|(file, host)| Learn { file, host }),
        "fail-server" => epoch_in::<V>(operands).map(|(file, epoch)| FailServer { file, epoch }),
        "start-server" => epoch_in::<V>(operands).map(|(file, epoch)| StartServer { file, epoch }),
        _ => None,
    }
}

// The file and the epoch of its server that the text names, in a version in which servers can be
// rebuilt.
fn epoch_in<V: Edition>(text: &str) -> Option<(u16, u16)>
    ensures { Reads server_text (λ p. (may_rebuild V.version ≡ true) × AreServerParts p) text.now result }
{
    if V::version().may_rebuild() {
        server_of(text)
    } else {
        None
    }
}
