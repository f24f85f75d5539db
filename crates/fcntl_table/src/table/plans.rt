//! The planned changes of the one table.
ghost use Rattle.std.specs.Prelude.{◌≡◌, ◌<◌, false, IfOk, IsOk, Result, Ok, Err};
ghost use Rattle.model.specs.rule.Descriptors.{after};
ghost use Rattle.model.specs.declared.reply.Reply.{Reply};
ghost use Rattle.model.specs.rule.Table.{around, beside, regions_with, lock_within, after_close, after_exit};
ghost use Rattle.model.specs.rule.Step.{Is};
ghost use Rattle.descriptors.specs.code.Rows.{begins, CanBegin};
ghost use Rattle.fcntl_table.specs.declared.edit.TableEdit.TheVariants.{Nothing};
ghost use Rattle.fcntl_table.specs.rule.Tables.{table_of, Keeps};
ghost use Rattle.fcntl_table.specs.code.Edits.{edited, Fits};

use super::{FcntlTable, host_of, refused};
use crate::edit::{Planned, TableEdit};
use crate::locks::lock_reply;
use model::{LockTarget, Mode, Process, ProcessCall, Reply};
use std::alloc::AllocError;

impl FcntlTable {
    /// The change that `call` would make, and its reply. Takes memory only where a process would
    /// begin.
    ///
    /// # Errors
    /// `AllocError` where a request for memory was refused; never in place of a reply that refuses
    /// the call.
    pub fn plan_call(&self, process: Process, call: ProcessCall) -> Result<Planned, AllocError>
        requires number { CanBegin process.pid call }
        requires kept { call ≡ ProcessCall.Spawn → Keeps self.now (record { node = process.node; incarnation = process.incarnation }) }
        ensures ok { IfOk result (λ planned. Is (beside (table_of self.now) process (after (around (table_of self.now) process) process.pid call)) planned.reply (edited (table_of self.now) planned.edit)) }
        ensures refused { (refusal : Reply) → after (around (table_of self.now) process) process.pid call ≡ Err refusal → result ≡ Ok (record { edit = Nothing; reply = refusal }) }
        ensures memory { begins call ≡ false → IsOk result }
        ensures fits { IfOk result (λ planned. Fits self.now planned.edit) }
    {
        let host = host_of(process);
        match self.hosts.plan(host, process.pid, call) {
            Ok((edit, reply)) => Ok(Planned {
                edit: TableEdit::OfProcess { host, edit },
                reply,
            }),
            Err(error) => refused(error),
        }
    }

    /// The change that `close` would make, and its reply: `Done`, `NoProcess` or `BadFd`. Takes no
    /// memory.
    pub fn plan_close(&self, process: Process, fd: u8) -> Planned
        ensures is { Is (after_close (table_of self.now) process fd) result.reply (edited (table_of self.now) result.edit) }
        ensures fits { Fits self.now result.edit }
    {
        match self.hosts.resolve(host_of(process), process.pid, fd) {
            Ok(_) => Planned {
                edit: TableEdit::Closes { process, fd },
                reply: Reply::Done,
            },
            Err(error) => Planned {
                edit: TableEdit::Nothing,
                reply: error.reply(),
            },
        }
    }

    /// The change that `exit` would make, and its reply: `Done` or `NoProcess`. Takes no memory.
    #[tactic(auto, unfolding(crate::specs::rule::Tables::table_of))]
    pub fn plan_exit(&self, process: Process) -> Planned
        ensures is { Is (after_exit (table_of self.now) process) result.reply (edited (table_of self.now) result.edit) }
        ensures fits { Fits self.now result.edit }
    {
        if !self.hosts.is_running(host_of(process), process.pid) {
            return Planned {
                edit: TableEdit::Nothing,
                reply: Reply::NoProcess,
            };
        }
        Planned {
            edit: TableEdit::Exits { process },
            reply: Reply::Done,
        }
    }

    /// The change that `lock_within` would make, and its reply: `Done`, or `NoLocks` where the
    /// owner would have more regions in the file than the limit.
    ///
    /// # Errors
    /// `AllocError` where a request for memory was refused; never in place of `NoLocks`.
    #[tactic(auto, unfolding(crate::specs::rule::Tables::table_of))]
    pub fn plan_lock(&self, call: LockTarget, mode: Option<Mode>) -> Result<Planned, AllocError>
        ensures ok { IfOk result (λ planned. Is (lock_within (table_of self.now) call mode) planned.reply (edited (table_of self.now) planned.edit)) }
        ensures refused { (table_of self.now).limit < regions_with (table_of self.now) call mode → result ≡ Ok (record { edit = Nothing; reply = Reply.NoLocks }) }
        ensures fits { IfOk result (λ planned. Fits self.now planned.edit) }
    {
        match self.locks.plan(call.owner, call.file, call.span, mode) {
            Ok(edit) => Ok(Planned {
                edit: TableEdit::OfLocks(edit),
                reply: Reply::Done,
            }),
            Err(error) => Ok(Planned {
                edit: TableEdit::Nothing,
                reply: lock_reply(error)?,
            }),
        }
    }
}
