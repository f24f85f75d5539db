//! What a node knows of all its files.
//!
//! Each function here that can fail errs with `AllocError`, where a request for memory was refused.
ghost use Rattle.std.specs.Prelude.{◌≡◌, ◌≤◌, ◌-◌, ◌↔◌, ℕ, Some, IfOk, IsTrue, All, length};
ghost use Rattle.std.specs.List.{slice_get};
ghost use Rattle.std.specs.Vec.{vec_capacity};
ghost use Rattle.model.specs.rule.Limits.{IsNumber};
ghost use Rattle.node_core.specs.rule.State.{first_file};
ghost use Rattle.node_core.specs.rule.Files.{state_of, file_state};
ghost use Rattle.node_core.specs.code.Plans.{rows_of, edit_in, files_after, told, files_told, CommandFits};

use crate::file_row::{FileEdit, FileRow};
use std::alloc::{AllocError, Global};
use std::marker::Model;

/// What a node knows of each file of its shape. A file has a row of its own once a command was done
/// at it or at a later one; the others share one, which knows nothing, so that a node begins without
/// a row for each. There is memory for all.
#[derive(Drop)]
pub struct FileRows {
    count: u16,
    rows: Vec<FileRow>,
    fresh: FileRow,
}

impl Model for FileRows {
    ghost use Rattle.std.specs.Prelude.{◌≡◌, ◌≤◌, List};
    ghost use Rattle.std.specs.Vec.{vec_capacity};
    ghost use Rattle.node_core.specs.declared.file_row.FileRow.{FileRow as Row};
    ghost use Rattle.node_core.specs.code.Plans.{first_row, rows_of};

    ghost Value = { List Row };

    ghost view = { λ f. rows_of f.count f.rows.items };

    ghost invariant = { λ f. (f.fresh ≡ first_row) × (f.count ≤ vec_capacity f.rows) };
}

// Makes rows for the files up to this one, which know nothing, where there are none. Takes no
// memory.
fn make_rows(rows: &mut Vec<FileRow>, file: u16)
    requires { file ≤ vec_capacity rows.old }
    ensures same { (n : ℕ) → rows_of n rows.new.items ≡ rows_of n rows.old.items }
    ensures made { file ≤ length rows.new.items }
    ensures capacity { vec_capacity rows.old ≤ vec_capacity rows.new }
{
    let alloc = *rows.allocator();
    while rows.len() < file as usize {
        rows.push_reserved(FileRow::new(alloc));
    }
}

impl FileRows {
    /// What a node knows of so many files when it begins.
    pub fn new(alloc: Global, count: u16) -> Result<FileRows, AllocError>
        ensures state { IfOk result (λ files. file_state files ≡ (λ file. first_file)) }
        ensures count { IfOk result (λ files. length files ≡ count) }
    {
        Ok(FileRows {
            count,
            rows: Vec::with_capacity(alloc, count as usize)?,
            fresh: FileRow::new(alloc),
        })
    }

    /// The same of each file.
    pub fn copy(&self, alloc: Global) -> Result<FileRows, AllocError>
        ensures { IfOk result (λ copy. copy ≡ self.now) }
    {
        let mut rows = Vec::with_capacity(alloc, self.count as usize)?;
        for row in &self.rows {
            rows.push(row.copy()?)?;
        }
        Ok(FileRows {
            count: self.count,
            rows,
            fresh: FileRow::new(alloc),
        })
    }

    /// The row of the file.
    pub fn get(&self, file: u16) -> &FileRow
        requires { IsNumber (length self.now) file }
        ensures state { state_of result.now ≡ file_state self.now file }
        ensures row { slice_get self.now (file - 1) ≡ Some result.now }
    {
        let place = file as usize - 1;
        if place < self.rows.len() {
            &self.rows[place]
        } else {
            &self.fresh
        }
    }

    /// Whether both say the same of each file.
    pub fn same(&self, other: &FileRows) -> bool
        requires { length self.now ≡ length other.now }
        ensures { IsTrue result ↔ (file_state self.now ≡ file_state other.now) }
    {
        for before in 0..self.count {
            if !self.get(before + 1).same(other.get(before + 1)) {
                return false;
            }
        }
        true
    }

    /// Makes the planned change of a command at its file, if there is one. Takes no memory.
    pub fn apply_command(&mut self, command: Option<Box<FileEdit>>)
        requires { CommandFits (length self.old) (edit_in command) }
        ensures state { file_state self.new ≡ files_after (file_state self.old) self.old (edit_in command) }
        ensures count { length self.new ≡ length self.old }
    {
        if let Some(edit) = command {
            let edit = Box::into_inner(edit);
            make_rows(&mut self.rows, edit.file);
            let row = &mut self.rows[edit.file as usize - 1];
            row.apply(edit);
        }
    }

    // Notes that no Freed is owed for the file any longer.
    fn clear_one(&mut self, file: u16)
        requires { IsNumber (length self.old) file }
        ensures state { file_state self.new ≡ told (file_state self.old) file }
        ensures count { length self.new ≡ length self.old }
    {
        if file as usize <= self.rows.len() {
            let row = &mut self.rows[file as usize - 1];
            row.clear_owed();
        }
    }

    /// Notes that no Freed is owed for these files any longer. Takes no memory.
    pub fn clear_owed(&mut self, freed: &[u16])
        requires { All (IsNumber (length self.old)) freed.now }
        ensures state { file_state self.new ≡ files_told (file_state self.old) freed.now }
        ensures count { length self.new ≡ length self.old }
    {
        for file in freed {
            self.clear_one(*file);
        }
    }
}
