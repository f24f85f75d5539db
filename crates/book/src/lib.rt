//! The book, which is the journal that the actors of a cluster share, and the seats from which they commit their
//! steps. It stands on a trail, a list that only grows and stands in the proofs alone: whoever keeps a spot of it
//! knows what stands there. At run time a trail is its length and a spot a number. A trail knows nothing of what is
//! listed, and the book nothing of threads and locks, of files of the operating system or of printed text.
#![tactic(auto)]

pub mod book;
pub mod commit_error;
pub mod confirms;
mod holds;
mod last_spots;
pub mod mark;
pub mod new_trail;
mod outcomes;
mod planned_step;
pub mod prepared;
pub mod receipt;
pub mod seat;
pub mod spot;
pub mod stamp;
mod standing;
mod state;
mod state_edit;
mod tests_of;
pub mod trail;
pub mod trail_name;
mod trail_rule;
pub mod unnamed;

pub use book::Book;
pub use commit_error::CommitError;
pub use confirms::Confirms;
pub(crate) use last_spots::LastSpots;
pub use mark::Mark;
pub use new_trail::NewTrail;
pub(crate) use outcomes::copy_of;
pub(crate) use planned_step::PlannedStep;
pub use prepared::Prepared;
pub use receipt::Receipt;
pub use seat::Seat;
pub(crate) use spot::Spot;
pub use stamp::Stamp;
pub(crate) use standing::Standing;
pub(crate) use state::State;
pub(crate) use state_edit::StateEdit;
pub(crate) use tests_of::{accepts, seen_of};
pub(crate) use trail::Trail;
pub use trail_name::Name;
pub(crate) use trail_rule::{Add, Law, Nothing};
pub(crate) use unnamed::Unnamed;
