//! Histories of calls that clients of a lock manager saw, and the judgement whether one table of record locks
//! explains one. It knows nothing of how a lock manager works, of nodes' messages, of files of the operating system
//! or of printed text.
#![tactic(auto)]

pub mod act;
mod answered;
mod asked;
mod call_ending;
pub mod client_call;
mod closing;
mod exits;
pub mod explains;
mod first_calls;
mod follow;
mod front_list;
mod halves;
mod in_time;
pub mod judge;
pub mod laws;
mod legal;
mod marks;
mod moment;
mod needs;
mod open_client_call;
mod owner_calls;
mod paths;
mod search;
mod search_front;
mod sound;
pub mod told_lock;
pub mod verdict;

pub use act::Act;
pub(crate) use answered::{are_answered, ended_by};
pub(crate) use call_ending::{CallEnding, settle};
pub use client_call::ClientCall;
pub(crate) use closing::{forget_each, over_of, without};
pub(crate) use exits::{exits_are_last, exits_are_whole};
pub(crate) use follow::{FILE, is_free, is_in_way};
pub(crate) use front_list::{add_front, ask_each};
pub(crate) use halves::are_behind_their_first;
pub(crate) use in_time::{are_in_time, have_begun};
pub(crate) use legal::is_legal;
pub(crate) use marks::marks_of;
pub(crate) use moment::{Moment, begins_of, ends_of};
pub(crate) use open_client_call::OpenClientCall;
pub(crate) use owner_calls::{OwnerCalls, changes};
pub(crate) use paths::Paths;
pub(crate) use search::look_for_order;
pub(crate) use search_front::SearchFront;
pub(crate) use sound::are_sound;
pub use told_lock::ToldLock;
pub use verdict::Verdict;
