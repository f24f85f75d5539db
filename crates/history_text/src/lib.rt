//! Histories of lock calls as text, in which each line is a call that clients of a lock manager saw; the rules by which
//! such managers are known to differ from one table; and judgements of histories, as they are printed: whether one table
//! of record locks explains what clients saw, which lock blocks a call that fits nowhere, and whether given orders
//! explain the calls. It knows nothing of how an order is searched, or of files of the operating system.
#![tactic(auto)]

mod asked_call;
mod drops;
mod error;
mod file_calls;
mod files;
mod got_locks;
mod head;
mod history_reader;
mod json;
mod judged;
pub mod judgement;
pub mod judging;
mod known_names;
mod line_words;
mod names;
mod orders;
mod owners;
mod page;
mod reading;
pub mod rule;
mod steps;
mod tables;
pub mod written_history;

pub(crate) use asked_call::{Asked, AskedCall, Operation, Reply, end_exit, next_asked};
pub(crate) use drops::{Loss, Losses, add_drops};
pub(crate) use error::{LineError, MISSING, NO_HEAD, NO_OWNER, WRONG_REPLY};
pub(crate) use file_calls::FileCalls;
pub(crate) use files::{add_file, end_files, push_call, push_steps};
pub(crate) use got_locks::got_by;
pub(crate) use head::{Head, Machine, check_owner};
pub(crate) use history_reader::HistoryReader;
pub(crate) use json::Json;
pub(crate) use judged::{Judged, Misfit, files_judged, in_all_time};
pub use judgement::{Judgement, judge_history, judge_orders};
pub use judging::{JudgeError, JudgementOutcome, Judging};
pub(crate) use known_names::{CallBody, CallLine, KnownNames};
pub(crate) use line_words::{LineWord, LineWords, next_end, next_mode, next_span, next_time};
pub(crate) use names::Names;
pub(crate) use orders::{first_unexplained, orders_of, words_of};
pub(crate) use owners::{Exit, Owners, may_begin, number_of, owner_of};
pub(crate) use page::Page;
pub(crate) use reading::read;
pub use rule::Allowed;
pub(crate) use steps::{Steps, steps_of};
pub(crate) use tables::{Before, table_before};
pub(crate) use written_history::{LineCounts, WrittenHistory};
