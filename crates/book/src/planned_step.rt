//! A step as it was planned from an actor's state.
use crate::state_edit::StateEdit;
use messages::{Event, Outcome};

/// A step that was planned from the copy of an actor's state: its event, its change of that copy, and its outcome.
#[derive(Drop)]
pub(crate) struct PlannedStep {
    pub(crate) event: Event,
    pub(crate) edit: StateEdit,
    pub(crate) outcome: Outcome,
}
