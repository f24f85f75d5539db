//! The messages between nodes and token servers, the events and outcomes of their steps, the
//! entries of the journal, who is alive in a cluster, and when an actor sends again. This crate knows
//! nothing of the states of nodes and servers, of how any of this is written as text, of files on a
//! disk, or of threads.
#![tactic(auto)]

pub mod actor;
pub mod command_number;
mod crowd;
pub mod entry;
pub mod epoch_number;
pub mod event;
pub mod file_number;
pub mod items;
pub mod kept_reply;
pub mod members;
pub mod message;
pub mod outcome;
pub mod pace;
pub mod patience;
pub mod refusal;
pub mod sends;
pub mod shape;
pub mod shared_message;
pub mod token_run;
pub mod version;
pub mod wanted;

pub use actor::Actor;
pub use command_number::{CommandNumber, GREATEST_NUMBER, MOST_EPOCHS};
pub use entry::Entry;
pub use epoch_number::EpochNumber;
pub use event::{Event, MemberEvent, NodeInput, ServerInput};
pub use file_number::FileNumber;
pub use items::Items;
pub use kept_reply::KeptReply;
pub use members::Members;
pub use message::{Blocking, Message};
pub use outcome::Outcome;
pub use pace::Pace;
pub use patience::Patience;
pub use refusal::{Refused, StepError};
pub use sends::Sends;
pub use shape::{MOST_FILES, Shape};
pub use shared_message::SharedMessage;
pub use token_run::{TokenRun, TokenRuns};
pub use version::Version;
pub use wanted::Wanted;
