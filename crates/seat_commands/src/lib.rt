//! The commands `seat`, `members`, `merge` and `play` of the program: their words, and their files.
#![tactic(auto)]

pub mod attend;
mod change_list;
mod clock;
mod faults;
mod help;
mod lines;
mod logs;
mod members_command;
mod merge_command;
mod read_back;
mod register;
mod seat;
mod table;
mod words;

pub(crate) use change_list::{ChangeList, NotedChange, push_list_head, push_noted, push_told};
pub(crate) use clock::{GREATEST_MOMENT, Stopwatch, Timed, push_interval, push_timed};
pub(crate) use faults::{MergeFault, faulty, tell_stuck, told};
pub(crate) use lines::{ActorLine, Asked, MembersLine, MergeLine};
pub(crate) use logs::{declared_in, logs_of, shape_of};
pub(crate) use members_command::{keep_members, open_added};
pub(crate) use register::{Register, keep};
pub(crate) use seat::have_seat;
pub(crate) use table::{MOST_PAST, program};
pub(crate) use words::asked_by;
