//! The reader of a history, line by line.
ghost use Rattle.std.specs.Prelude.{◌≡◌, ◌≤◌, ◌<◌, ◌+◌, if◌then◌else◌, false, None, OnOk};
ghost use Rattle.history_text.specs.rule.Histories.{counted, is_call};
ghost use Rattle.history_text.specs.code.Readings.{AreBefore, IsRead, IsPaired};
ghost use Rattle.history_text.specs.rule.Owners.{most_owners, owner_numbered};

use crate::{
    Allowed, Asked, CallBody, CallLine, FileCalls, Head, KnownNames, LineCounts, LineError,
    LineWords, NO_HEAD, Operation, Steps, add_file, owner_of, push_call, push_steps, steps_of,
};
use client_history::{Act, ClientCall};
use std::alloc::Global;
use texts::text::after;

/// What the lines read so far say: those that are none of calls; owners and files; the calls of each file; and the
/// numbers of lines of calls.
#[derive(Drop)]
pub(crate) struct HistoryReader {
    pub(crate) head: Head,
    pub(crate) known: KnownNames,
    pub(crate) files: Vec<FileCalls>,
    pub(crate) counts: LineCounts,
}

impl HistoryReader {
    /// The reader before the first line.
    pub(crate) fn new(alloc: Global) -> HistoryReader
        ensures read { (allowed : Allowed) → IsRead allowed 0 result }
        ensures paired { IsPaired result }
        ensures counted { counted result.counts ≡ 0 }
    {
        HistoryReader {
            head: Head::new(alloc),
            known: KnownNames::new(alloc),
            files: Vec::new(alloc),
            counts: LineCounts {
                calls: 0,
                exits: 0,
                silent: 0,
            },
        }
    }

    /// Takes the line of this number, where these rules are allowed.
    ///
    /// # Errors
    /// `NoMemory` where a request for memory was refused; `Bad` with the first word of the line that may not stand
    /// there.
    pub(crate) fn take(
        &mut self,
        alloc: Global,
        allowed: Allowed,
        line: u64,
        text: &str,
    ) -> Result<(), LineError>
        requires read { IsRead allowed line self.old }
        requires paired { IsPaired self.old }
        requires before { AreBefore line self.old.files.items }
        requires line { 1 ≤ line }
        requires counted { counted self.old.counts < line }
        ensures read { OnOk result (IsRead allowed line self.new) }
        ensures paired { OnOk result (IsPaired self.new) }
        ensures counted { OnOk result (counted self.new.counts ≡ counted self.old.counts + (if is_call text.now then 1 else 0)) }
    {
        let Some(rest) = after(text, "call ") else {
            let has_calls = self.counts.calls > 0
                || self.counts.exits > 0
                || self.counts.silent > 0;
            return self.head.take(alloc, allowed, line, text, has_calls);
        };
        if !self.head.is_read {
            return Err(LineWords::of(text).fault(NO_HEAD));
        }
        self.take_call(alloc, allowed, line, &mut LineWords::of(rest))
    }

    // Takes the words behind the word `call` in the line of this number.
    fn take_call(
        &mut self,
        alloc: Global,
        allowed: Allowed,
        line: u64,
        words: &mut LineWords<'_>,
    ) -> Result<(), LineError>
        requires read { IsRead allowed line self.old }
        requires paired { IsPaired self.old }
        requires before { AreBefore line self.old.files.items }
        requires line { 1 ≤ line }
        requires counted { counted self.old.counts < line }
        ensures read { OnOk result (IsRead allowed line self.new) }
        ensures paired { OnOk result (IsPaired self.new) }
        ensures counted { OnOk result (counted self.new.counts ≡ counted self.old.counts + 1) }
    {
        let machines = &self.head.machines;
        let CallLine {
            owner,
            begin,
            end,
            deed,
        } = match self.known.next_call(alloc, machines, line, words) {
            Ok(call) => call,
            Err(error) => return Err(error),
        };
        let CallBody::Asks { file, asked } = deed else {
            self.counts.exits += 1;
            return Ok(());
        };
        let operation: Operation = asked.operation; // tells the proof the type of a call's operation
        add_file(alloc, &mut self.files, file)?;
        match steps_of(&Asked { operation, ..asked }, allowed) {
            Steps::None => {
                self.counts.silent += 1;
                Ok(())
            }
            Steps::One(act) => {
                let call = call_of(owner, begin, end, act);
                push_call(&mut self.files, file, line, &call)?;
                self.counts.calls += 1;
                Ok(())
            }
            Steps::Two(first, second) => {
                let first = call_of(owner, begin, end, first);
                let second = call_of(owner, begin, end, second);
                push_steps(&mut self.files, file, line, &first, &second)?;
                self.counts.calls += 1;
                Ok(())
            }
        }
    }
}

// The call of the owner of this number, or one step of it.
fn call_of(owner: usize, begin: u64, end: Option<u64>, act: Act) -> ClientCall
    requires { owner < most_owners }
    ensures { result ≡ record { owner = owner_numbered owner; begin = begin; end = end; act = act; is_last = false; follows = None } }
{
    ClientCall {
        owner: owner_of(owner),
        begin,
        end,
        act,
        is_last: false,
        follows: None,
    }
}
