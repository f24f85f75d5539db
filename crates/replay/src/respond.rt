//! The program as a function of its words.
ghost use Rattle.std.specs.Prelude.{◌≡◌, ◌≢◌, ◌≤◌, ◌<◌, ◌↔◌, ◌⊎◌, ℕ, false, List, Option, Some, map, IfErr};
ghost use Rattle.std.specs.Io.KnownBytes.{Appends};
ghost use Rattle.command_line.specs.rule.Tasks.{journal_path, Task};
ghost use Rattle.command_line.specs.rule.Words.{AreWrong, AsksFor, AsksForHelp};
ghost use Rattle.replay.specs.declared.fault.Fault.TheVariants.{CannotWriteOutput, NoMemory};
ghost use Rattle.replay.specs.rule.Commands.{Does, IsFaultOrShort, Leaves, MayNotKnow, Shows, TellsFault, says_why, IsHelp, refusal_status, refusal_text, AreUnread, IsStatus};
ghost use Rattle.replay.specs.rule.Faults.{fault_line};
ghost use Rattle.replay.specs.rule.Stores.{AppendsPart, WritesOrFails, TellsBeside};
ghost use Rattle.std.specs.IoError.{error_kind};

use crate::perform::{perform, report};
use crate::{Fault, Output, Store, put_all, put_line};
use command_line::command_line::CommandLine;
use command_line::refusal::Refusal;
use player::Watcher;
use std::alloc::Global;
use std::convert::AsStr;
use std::env;
use std::io::{Error, ErrorKind};
use std::rt::Env;
use std::sync::Wait;
use std::thread::Threads;
use std::time::Clock;
use thread_runs::RunWatcher;

/// Does what the words ask for, the first of them being the program's name, and answers the exit
/// status: that of `perform`; 0 where they ask for help or for the version, which the first writer
/// gets; 2 where they are wrong, which the second writer is told; 4 where memory was short for them. Of long work
/// the watcher is told how far it is.
pub fn respond<
    R: Threads + Wait + Clock + Sync,
    W: AsStr,
    S: Store,
    O: Output,
    E: Output,
    V: Watcher + RunWatcher,
>(
    rt: &R,
    alloc: Global,
    words: &[W],
    store: &mut S,
    out: &mut O,
    err: &mut E,
    watcher: &mut V,
) -> u8
    ensures status { (result ≡ 2) ⊎ IsStatus result }

    // Words that ask for something, by the program's table, are done as `perform` does it, unless memory
    // is short before.
    ensures done { (task : Task) → AsksFor (map W.text words.now) task
        → result ≤ 1 → Shows (Does (S.holds store.old) task (S.holds store.new)) (O.taken out.old) (O.taken out.new)
        (TellsBeside E.taken E.has_failed err.old err.new) result }
    ensures undecided { result ≡ 5 → (task : Task) × AsksFor (map W.text words.now) task × MayNotKnow task × O.is_flushed out.new
        × Shows (Does (S.holds store.old) task (S.holds store.new)) (O.taken out.old) (O.taken out.new) (TellsBeside E.taken E.has_failed err.old err.new) result }
    ensures fault { (task : Task) → AsksFor (map W.text words.now) task
        → 2 < result → result ≢ 5 → TellsFault (IsFaultOrShort (S.holds store.old) (S.ran_short store.new) (S.refuses store.new) task (S.holds store.new))
        (Leaves (Does (S.holds store.old) task (S.holds store.new)) O.taken O.has_failed out.old out.new)
        (λ fault. says_why task ≡ false → WritesOrFails (E.taken err.old) (E.taken err.new) (E.has_failed err.new) (fault_line fault)) result }

    // The status tells what the words are.
    ensures zero { result ≡ 0 → AsksForHelp (map W.text words.now) ⊎ ((task : Task) × AsksFor (map W.text words.now) task) }
    ensures one { result ≡ 1 → (task : Task) × AsksFor (map W.text words.now) task }
    ensures shown { result ≤ 1 → O.is_flushed out.new }
    ensures quiet { result ≡ 0 → err.new ≡ err.old }
    ensures wrong { result ≡ 2 → AreWrong (map W.text words.now) × (out.new ≡ out.old) }

    // Words that ask for nothing to be done end so only where the help that they ask for could not be
    // written, or where memory was short for them.
    ensures unshown { result ≡ 3 → ((task : Task) × AsksFor (map W.text words.now) task)
        ⊎ (AsksForHelp (map W.text words.now) × O.has_failed out.new
        × WritesOrFails (E.taken err.old) (E.taken err.new) (E.has_failed err.new) (fault_line CannotWriteOutput)) }
    ensures short { result ≡ 4 → (out.new ≡ out.old) × (((task : Task) × AsksFor (map W.text words.now) task)
        ⊎ WritesOrFails (E.taken err.old) (E.taken err.new) (E.has_failed err.new) (fault_line NoMemory)) }

    // No file changes but that of the journal that the words ask for.
    ensures files { (path : List ℕ) (file : Option (List ℕ)) → ((task : Task) → AsksFor (map W.text words.now) task → journal_path task ≢ Some path)
        → S.holds store.new path file ↔ S.holds store.old path file }
{
    match CommandLine::read(alloc, words) {
        Ok(line) => perform(rt, alloc, &line, store, out, err, watcher),
        Err(refusal) => refuse(&refusal, out, err),
    }
}

/// Tells why the words are no command line, and answers the exit status: 0 where they ask for help
/// or for the version, which the first writer gets, 2 where they are wrong, 4 where memory was short.
pub fn refuse<O: Output, E: Output>(refusal: &Refusal, out: &mut O, err: &mut E) -> u8
    // Help is shown, unless the first writer fails.
    ensures help { IsHelp refusal.now → ((result ≡ 0) × Appends (O.taken out.old) (O.taken out.new) (refusal_text refusal.now) × O.is_flushed out.new × (err.new ≡ err.old))
        ⊎ ((result ≡ 3) × AppendsPart (O.taken out.old) (O.taken out.new) (refusal_text refusal.now) × O.has_failed out.new
        × WritesOrFails (E.taken err.old) (E.taken err.new) (E.has_failed err.new) (fault_line CannotWriteOutput)) }

    // Else the second writer gets the text, and the first nothing.
    ensures refused { ¬ (IsHelp refusal.now) → (result ≡ refusal_status refusal.now) × (out.new ≡ out.old)
        × WritesOrFails (E.taken err.old) (E.taken err.new) (E.has_failed err.new) (refusal_text refusal.now) }
{
    match refusal {
        Refusal::Help(help) => match put_all(out, help.as_str()) {
            Ok(()) => 0,
            Err(_) => report(&Fault::CannotWriteOutput, err),
        },
        Refusal::Wrong(text) => {
            let _ = err.put(text.as_bytes());
            2
        }
        Refusal::NotText => {
            let _ = put_line(err, "a word of the command line is not UTF-8", "");
            2
        }
        Refusal::NoMemory => report(&Fault::NoMemory, err),
    }
}

/// The words of the command line, the first of them being the program's name.
///
/// # Errors
/// `NotText` where one of them is not UTF-8; `NoMemory` where a request for memory was refused.
pub fn read_words<R: Env + AllocGlobal>(rt: &R) -> Result<Vec<String>, Refusal>
    ensures { IfErr result AreUnread }
{
    let words = env::args(rt).map_err(|error| refusal_of(&error))?;
    words.collect(rt.alloc()).map_err(|_| Refusal::NoMemory)
}

// Words are read but for memory, or for one that is not UTF-8.
fn refusal_of(error: &Error) -> Refusal
    ensures unread { AreUnread result }
    ensures memory { error_kind error.now ≡ ErrorKind.OutOfMemory → result ≡ Refusal.NoMemory }
    ensures text { error_kind error.now ≢ ErrorKind.OutOfMemory → result ≡ Refusal.NotText }
{
    match error.kind() {
        ErrorKind::OutOfMemory => Refusal::NoMemory,
        _ => Refusal::NotText,
    }
}
