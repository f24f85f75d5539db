//! Entries whose events have their names in them.
use crate::named_event::NamedEvent;
use messages::Sends;
use model::{CallId, Reply};

/// An entry of a journal, whose event has its names in it.
#[derive(Drop)]
pub struct NamedEntry<'a> {
    pub event: NamedEvent<'a>,
    pub reply: Option<(CallId, Reply)>,
    pub sends: Sends,
}
