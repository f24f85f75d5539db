//! The lines of the commands.
ghost use Rattle.std.specs.Prelude.{◌≡◌};
ghost use Rattle.seat_commands.specs.rule.Merging.{path_of, target_of};

use messages::{Actor, Shape};

/// What the words of a command line ask for.
#[derive(Drop)]
pub(crate) enum Asked<'a> {
    Seat(ActorLine<'a>),
    Members(MembersLine<'a>),
    Merge(MergeLine<'a>),
    Play,
}

/// `seat node N | server F --nodes X --files Y --policy P [--again [--past TIMES]] [--log FILE] [--clock]`: to have a seat.
#[derive(Clone, Copy)]
pub(crate) struct ActorLine<'a> {
    /// The cluster.
    pub(crate) shape: Shape,
    /// The actor, which is one of the cluster.
    pub(crate) actor: Actor,
    /// Whether the actor works only once it begins again.
    pub(crate) again: bool,
    /// How many times the actor begins again at seats before this one, which are left to those.
    pub(crate) left: u16,
    /// The path of the log, if one is to be written.
    pub(crate) log: Option<&'a str>,
    /// Whether a clock is read for each block.
    pub(crate) clock: bool,
}

/// `members --nodes X --files Y --state FILE [--clock]`: to keep the list of declarations and starts of a cluster of this
/// shape, whose policy says nothing here.
#[derive(Clone, Copy)]
pub(crate) struct MembersLine<'a> {
    pub(crate) shape: Shape,
    /// The path of the file that has the list.
    pub(crate) state: &'a str,
    /// Whether a clock is read for each block.
    pub(crate) clock: bool,
}

/// `merge LOG.. --journal FILE [--members FILE] [--check] [--skew N]`: to make one journal of the logs of single actors.
#[derive(Drop)]
pub(crate) struct MergeLine<'a> {
    /// The paths of the logs, of which there is at least one.
    pub(crate) logs: Vec<&'a str>,
    /// The path of the list of declarations and starts, if there is one.
    pub(crate) members: Option<&'a str>,
    /// The path of the journal, if there is to be one.
    pub(crate) journal: Option<&'a str>,
    /// Whether it is only asked whether there is one: no file is written.
    pub(crate) check: bool,
    /// By how much two clocks may differ at most, in their unit.
    pub(crate) skew: u64,
}

impl<'a> MergeLine<'a> {
    /// The path of the journal, if one is to be written.
    pub(crate) fn target(&self) -> Option<&'a str>
        ensures { path_of result ≡ target_of self.now }
    {
        if self.check { None } else { self.journal }
    }
}
