//! The commands of the program: the files, the run and what is printed of it. It stands above all tools, and alone knows files of
//! the operating system; it knows no rule of a node or a token server.
#![tactic(auto)]

mod audit;
pub mod disk;
pub mod fault;
pub mod input;
pub mod journal_draft;
mod judge;
pub mod meter;
pub mod output;
pub mod perform;
pub mod respond;
mod run;
pub mod shown;
mod state;
pub mod store;
mod threads;

pub(crate) use audit::{Audited, checked, checked_new};
pub use disk::Disk;
pub use fault::Fault;
pub use input::text_of;
pub use journal_draft::keep_journal;
pub use meter::Meter;
pub use output::{Output, put_all};
pub(crate) use output::{WriteFailed, put_line};
pub use respond::{read_words, refuse};
pub(crate) use run::{listing_of, push_history_of, run_alone, run_behind};
pub(crate) use shown::Shown;
pub(crate) use store::FileDraft;
pub use store::{FileReason, Store, StoreError};
pub(crate) use threads::play_on_threads;
