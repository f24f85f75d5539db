//! The owners and files that the lines of calls read so far name.
ghost use Rattle.std.specs.Prelude.{◌≡◌, ◌<◌, ℕ, [], length, IfOk, OnOk};
ghost use Rattle.history_text.specs.rule.Owners.{IsTimed};
ghost use Rattle.history_text.specs.code.Readings.{HasBegun, IsSound, Learns, NamesOf};

use crate::{
    Asked, AskedCall, Exit, LineError, LineWord, LineWords, Machine, Names, Owners, check_owner,
    end_exit, next_asked, next_end, next_time, owner_of,
};
use client_history::ToldLock;
use model::Owner;
use std::alloc::Global;

/// A call as its line says it: the number of its owner, its begin, and its end, if that is known.
#[derive(Clone, Copy)]
pub(crate) struct CallLine {
    pub(crate) owner: usize,
    pub(crate) begin: u64,
    pub(crate) end: Option<u64>,
    pub(crate) deed: CallBody,
}

/// What a call is about.
#[derive(Clone, Copy)]
pub(crate) enum CallBody {
    /// The exit of the call's owner.
    Exits,
    /// An operation on the file of this number, with its reply.
    Asks { file: usize, asked: Asked },
}

/// The owners and the files that lines name.
#[derive(Drop)]
pub(crate) struct KnownNames {
    pub(crate) owners: Owners,
    pub(crate) files: Names,
}

impl KnownNames {
    /// Nothing is known before the first line.
    pub(crate) fn new(alloc: Global) -> KnownNames
        ensures sound { IsSound result }
        ensures lives { result.owners.lives.items ≡ [] }
        ensures files { result.files ≡ [] }
    {
        KnownNames {
            owners: Owners::new(alloc),
            files: Names::new(alloc),
        }
    }

    /// Takes the words of a call behind the word `call`, in the line of this number, where these machines are
    /// declared.
    ///
    /// # Errors
    /// `NoMemory` where a request for memory was refused; `Bad` with the first word that may not stand there.
    pub(crate) fn next_call(
        &mut self,
        alloc: Global,
        machines: &[Machine],
        line: u64,
        words: &mut LineWords<'_>,
    ) -> Result<CallLine, LineError>
        requires { IsSound self.old }
        ensures learns { OnOk result (Learns line self.old self.new) }
        ensures begun { IfOk result (λ call. HasBegun self.new.owners.lives.items call.owner call.begin) }
        ensures timed { IfOk result (λ call. IsTimed call.begin call.end) }
        ensures files { IfOk result (λ call. NamesOf call.deed (length self.old.files) (length self.new.files)) }
    {
        let begin = next_time(words)?;
        let end = call_end(words, begin)?;
        let name = words.next_word()?;
        check_owner(&name, machines)?;
        let owner = self.caller(alloc, &name, begin)?;
        match self.next_deed(alloc, machines, owner, Exit { line, begin, end }, words) {
            Ok(deed) => Ok(CallLine {
                owner,
                begin,
                end,
                deed,
            }),
            Err(error) => Err(error),
        }
    }

    // The number of the owner that the word names, which begins a call at that time.
    fn caller(&mut self, alloc: Global, name: &LineWord<'_>, begin: u64) -> Result<usize, LineError>
        requires { IsSound self.old }
        ensures learns { OnOk result ((line : ℕ) → Learns line self.old self.new) }
        ensures begun { IfOk result (λ owner. HasBegun self.new.owners.lives.items owner begin) }
        ensures files { self.new.files ≡ self.old.files }
    {
        let owner = self.named_owner(alloc, name)?;
        match self.owners.begin_call(owner, begin) {
            Ok(()) => Ok(owner),
            Err(reason) => Err(name.fault(reason)),
        }
    }

    // The number of the owner that the word names.
    fn named_owner(&mut self, alloc: Global, name: &LineWord<'_>) -> Result<usize, LineError>
        requires { IsSound self.old }
        ensures learns { OnOk result ((line : ℕ) → Learns line self.old self.new) }
        ensures within { IfOk result (λ owner. owner < length self.new.owners.lives.items) }
        ensures files { self.new.files ≡ self.old.files }
    {
        self.owners.number_of(alloc, name)
    }

    // Takes the deed of a call. If it is an exit, it is that of the owner.
    fn next_deed(
        &mut self,
        alloc: Global,
        machines: &[Machine],
        owner: usize,
        exit: Exit,
        words: &mut LineWords<'_>,
    ) -> Result<CallBody, LineError>
        requires sound { IsSound self.old }
        requires begun { HasBegun self.old.owners.lives.items owner exit.begin }
        ensures learns { OnOk result (Learns exit.line self.old self.new) }
        ensures files { IfOk result (λ deed. NamesOf deed (length self.old.files) (length self.new.files)) }
    {
        let word = words.next_word()?;
        if word.text == "exit" {
            match self.owners.exit(owner, exit) {
                Ok(()) => {}
                Err(reason) => return Err(word.fault(reason)),
            }
            end_exit(words, exit.end.is_some())?;
            return Ok(CallBody::Exits);
        }
        match next_asked(&word, words, exit.end.is_some(), machines) {
            Ok(call) => self.asks(alloc, &call),
            Err(error) => Err(error),
        }
    }

    // What a call on a file is about.
    fn asks(&mut self, alloc: Global, call: &AskedCall<'_>) -> Result<CallBody, LineError>
        requires { IsSound self.old }
        ensures learns { OnOk result ((line : ℕ) → Learns line self.old self.new) }
        ensures files { IfOk result (λ deed. NamesOf deed (length self.old.files) (length self.new.files)) }
    {
        let file = self.files.number_of(alloc, call.file)?;
        match self.told(alloc, &call.owner) {
            Ok(owner) => {
                let told = ToldLock {
                    owner,
                    ..call.asked.told
                };
                let asked = Asked { told, ..call.asked };
                Ok(CallBody::Asks { file, asked })
            }
            Err(error) => Err(error),
        }
    }

    // The owner that the reply to a call names, if it does.
    fn told(
        &mut self,
        alloc: Global,
        name: &Option<LineWord<'_>>,
    ) -> Result<Option<Owner>, LineError>
        requires { IsSound self.old }
        ensures learns { OnOk result ((line : ℕ) → Learns line self.old self.new) }
        ensures files { self.new.files ≡ self.old.files }
    {
        match name {
            Some(name) => {
                let number = self.named_owner(alloc, name)?;
                Ok(Some(owner_of(number)))
            }
            None => Ok(None),
        }
    }
}

// Takes the end of a call that began at that time; none for `-`.
fn call_end(words: &mut LineWords<'_>, begin: u64) -> Result<Option<u64>, LineError>
    ensures { IfOk result (λ end. IsTimed begin end) }
{
    if words.skip_word("-") {
        return Ok(None);
    }
    let end = next_end(words, begin, "the call ends before it begins")?;
    Ok(Some(end))
}
