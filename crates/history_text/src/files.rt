//! The files of a history, with their calls. A function here that gives a `Result` answers `AllocError` where a
//! request for memory was refused.
ghost use Rattle.std.specs.Prelude.{◌≡◌, ◌≤◌, ◌<◌, ◌+◌, ℕ, List, All, length, max, sum_by, OnOk};
ghost use Rattle.texts.specs.rule.Reads.{IsWithin};
ghost use Rattle.history_text.specs.declared.owners.Life.{Life};
ghost use Rattle.history_text.specs.declared.rule.Allowed.{Allowed as Rules};
ghost use Rattle.history_text.specs.code.Readings.{AreEndedOf, AreBefore, AreFilesOf, IsAlone, IsCallOf, lines_in, AreLives, AreLosses, ArePaired};

use crate::{FileCalls, Losses, Names, Owners, add_drops};
use client_history::ClientCall;
use std::alloc::{AllocError, Global};

/// Appends a file, if the file of this number is a new one.
pub(crate) fn add_file(
    alloc: Global,
    files: &mut Vec<FileCalls>,
    file: usize,
) -> Result<(), AllocError>
    requires { file ≤ length files.old.items }
    ensures count { OnOk result (length files.new.items ≡ max (length files.old.items) (file + 1)) }
    ensures files { OnOk result ((lives : List Life) (lines : ℕ) → AreFilesOf lives lines files.old.items → AreFilesOf lives lines files.new.items) }
    ensures lines { OnOk result (sum_by lines_in files.new.items ≡ sum_by lines_in files.old.items) }
    ensures before { OnOk result ((line : ℕ) → AreBefore line files.old.items → AreBefore line files.new.items) }
    ensures alone { OnOk result (All IsAlone files.old.items → All IsAlone files.new.items) }
{
    if file == files.len() {
        files.push(FileCalls::new(alloc))?;
    }
    Ok(())
}

/// Appends the call of this line to the file. No call before is of that line.
pub(crate) fn push_call(
    files: &mut Vec<FileCalls>,
    file: usize,
    line: u64,
    call: &ClientCall,
) -> Result<(), AllocError>
    requires within { file < length files.old.items }
    requires before { AreBefore line files.old.items }
    ensures count { OnOk result (length files.new.items ≡ length files.old.items) }
    ensures files { OnOk result ((lives : List Life) (lines : ℕ) → IsWithin 1 lines line → IsCallOf lives call.now → AreFilesOf lives lines files.old.items → AreFilesOf lives lines files.new.items) }
    ensures lines { OnOk result (sum_by lines_in files.new.items ≡ sum_by lines_in files.old.items + 1) }
    ensures alone { OnOk result (All IsAlone files.old.items → All IsAlone files.new.items) }
{
    files[file].push(line, call)?;
    Ok(())
}

/// Appends the two calls of this line, which are steps of one, to the file. No call before is of that line.
pub(crate) fn push_steps(
    files: &mut Vec<FileCalls>,
    file: usize,
    line: u64,
    first: &ClientCall,
    second: &ClientCall,
) -> Result<(), AllocError>
    requires within { file < length files.old.items }
    requires before { AreBefore line files.old.items }
    ensures count { OnOk result (length files.new.items ≡ length files.old.items) }
    ensures files { OnOk result ((lives : List Life) (lines : ℕ) → IsWithin 1 lines line → IsCallOf lives first.now → IsCallOf lives second.now → AreFilesOf lives lines files.old.items → AreFilesOf lives lines files.new.items) }
    ensures lines { OnOk result (sum_by lines_in files.new.items ≡ sum_by lines_in files.old.items + 1) }
{
    files[file].push_steps(line, first, second)?;
    Ok(())
}

/// Appends to the calls of each file, whose name is at the same index, what their owners lost there, and their exits.
pub(crate) fn end_files(
    alloc: Global,
    files: &mut Vec<FileCalls>,
    names: &Names,
    owners: &Owners,
    losses: &Losses,
) -> Result<(), AllocError>
    requires { ArePaired losses.now }
    ensures count { OnOk result (length files.new.items ≡ length files.old.items) }
    ensures ended { OnOk result ((allowed : Rules) (lines : ℕ) → AreLives lines owners.now.lives.items → AreLosses allowed lines losses.now → AreFilesOf owners.now.lives.items lines files.old.items → AreEndedOf allowed owners.now.lives.items lines files.old.items files.new.items) }
{
    for i in 0..files.len() {
        let of_file = losses.of_file(names.get(i).unwrap_or(""));
        add_drops(alloc, &mut files[i], owners, of_file)?;
    }
    Ok(())
}
