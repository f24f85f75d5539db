//! What a seat is told.
use messages::Event;

/// What a seat is told: that something happens, or that time goes by.
#[derive(Drop)]
pub enum Order {
    /// The event happens: at the actor, or at a member of the cluster.
    Happens(Event),
    /// A tick goes by.
    Tick,
}
