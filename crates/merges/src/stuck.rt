//! Where logs can't go on.
use messages::Actor;

/// What is in the way of an entry, a declaration or a start that comes next.
#[derive(Clone, Copy, Debug, PartialEq, Eq)]
pub enum Hindrance {
    /// Something that is left had ended before it began.
    Clock,
    /// It is the entry of another actor.
    OtherActor,
    /// The actor is not in the incarnation of its log.
    Incarnation,
    /// Its event may not happen: the message that it delivers was not sent, what it learns was not declared, or it is refused.
    Cause,
    /// Its event makes another entry.
    Otherwise,
    /// The log of the incarnation that it ends is not used up.
    EntriesLeft,
}

/// A log, or the list of declarations and starts, that can't go on.
#[derive(Clone, Copy, Debug, PartialEq, Eq)]
pub struct Stuck {
    /// Whose log it is, and of which incarnation; none of the list.
    pub log: Option<(Actor, u16)>,
    /// How many of it were put.
    pub put: usize,
    /// What is in the way of the next one.
    pub hindrance: Hindrance,
}
