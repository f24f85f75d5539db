//! The files of the system.
ghost use Rattle.std.specs.Prelude.{◌≡◌, ◌↔◌};
ghost use Rattle.std.specs.IoError.{error_kind};
ghost use Rattle.replay.specs.declared.store.StoreError.TheVariants.{NoMemory};

use crate::store::{FileDraft, FileReason, Store, StoreError};
use std::alloc::{AllocError, Global};
use std::fs::{File, Metadata, OpenFile, OpenOptions};
use std::io::{BufWriter, Error, ErrorKind, Write};
use std::rt::Files;
use std::{fs, io};

// How many names are tried for a file beside another.
const NAMES: u32 = 16;

// How many bytes are written to it at once.
const AT_ONCE: usize = 65_536;

// How many bytes are written to a file that is only a trial.
const BLOCK: usize = 4_096;

/// The files of the system, by paths as the caller gives them; `-` is standard input where it is read.
#[derive(Drop)]
pub struct Disk<'a, R> {
    rt: &'a R,
}

impl<'a, R: Files + AllocGlobal> Disk<'a, R> {
    /// The files that the runtime reaches.
    pub fn new(rt: &'a R) -> Disk<'a, R> {
        Disk { rt }
    }
}

impl<R: Files + AllocGlobal> Store for Disk<'_, R> {
    type Draft = DiskDraft<R::File>;

    fn read(&mut self, _alloc: Global, path: &str) -> Result<Vec<u8>, StoreError> {
        let name = if path == "-" { "/dev/stdin" } else { path };
        fs::read(self.rt, name).map_err(|error| failure(&error, "no such file"))
    }

    fn begin(&mut self, path: &str) -> DiskDraft<R::File> {
        draft_of(self.rt, path)
    }

    fn commit(&mut self, path: &str, draft: DiskDraft<R::File>) -> Result<(), StoreError> {
        put_there(self.rt, path, draft).map_err(|error| failure(&error, "no such folder"))
    }

    fn abandon(&mut self, draft: DiskDraft<R::File>) {
        if let DiskDraft::Beside { name, file, .. } = draft {
            drop(file);
            let _ = fs::remove_file(self.rt, &name);
        }
    }

    fn try_write(&mut self, path: &str) -> Result<(), StoreError> {
        tried(self.rt, path).map_err(|error| failure(&error, "no such folder"))
    }
}

// Why a file was not read, or not written, where `missing` says what is missing if something is.
fn failure(error: &Error, missing: &'static str) -> StoreError
    ensures { error_kind error.now ≡ ErrorKind.OutOfMemory ↔ result ≡ NoMemory }
{
    match error.kind() {
        ErrorKind::OutOfMemory => StoreError::NoMemory,
        kind => StoreError::Failed(reason_of(kind, missing)),
    }
}

fn reason_of(kind: ErrorKind, missing: &'static str) -> FileReason {
    let words = match kind {
        ErrorKind::NotFound => missing,
        ErrorKind::IsADirectory => "it is a directory",
        ErrorKind::NotADirectory => "a part of the path is no directory",
        ErrorKind::PermissionDenied => "permission denied",
        ErrorKind::StorageFull | ErrorKind::QuotaExceeded | ErrorKind::FileTooLarge => {
            "no space left"
        }
        ErrorKind::ReadOnlyFilesystem => "the disk is read-only",
        ErrorKind::InvalidFilename | ErrorKind::InvalidInput => "no file may have this name",
        ErrorKind::FilesystemLoop => "its links lead round in a circle",
        ErrorKind::ResourceBusy | ErrorKind::ExecutableFileBusy => "it is in use",
        _ => return FileReason::Refused,
    };
    FileReason::Told(words)
}

// A file that is to take the place of that of the path, whose permissions it gets. It is made beside it, under a name
// of its own. Where the old one is no regular file or one that is not to be written, or none can be made beside it, it
// is kept in memory until it is written in place.
fn draft_of<R: Files + AllocGlobal>(rt: &R, path: &str) -> DiskDraft<R::File> {
    let old = match fs::symlink_metadata(rt, path) {
        Ok(found) if found.is_file() && !found.permissions().readonly() => Some(found),
        Err(error) if error.kind() == ErrorKind::NotFound => None,
        _ => return DiskDraft::Kept(Vec::new(rt.alloc())),
    };
    match open_beside(rt, path) {
        Ok(Some((name, file))) => draft_beside(rt, old, name, file),
        Ok(None) => DiskDraft::Kept(Vec::new(rt.alloc())),
        Err(error) => DiskDraft::Refused(error),
    }
}

// A new file beside that of the path, with its name; none where no name is free, or the folder takes none.
fn open_beside<R: Files + AllocGlobal>(
    rt: &R,
    path: &str,
) -> io::Result<Option<(String, R::File)>> {
    for number in 1..=NAMES {
        let name = format!(in rt.alloc(); "{path}.new{number}")?;
        match File::create_new(rt, &name) {
            Ok(file) => return Ok(Some((name, file))),
            Err(error) if error.kind() == ErrorKind::AlreadyExists => {}
            Err(_) => break,
        }
    }
    Ok(None)
}

// The file of the name, which gets the permissions of the old one. It goes where that fails.
fn draft_beside<R: Files + AllocGlobal>(
    rt: &R,
    old: Option<Metadata>,
    name: String,
    file: R::File,
) -> DiskDraft<R::File> {
    let allowed = match old {
        Some(old) => file.set_permissions(old.permissions()),
        None => Ok(()),
    };
    match allowed.and_then(|_| BufWriter::with_capacity(rt.alloc(), AT_ONCE, file)) {
        Ok(file) => DiskDraft::Beside {
            name,
            file,
            written: Ok(()),
        },
        Err(error) => {
            let _ = fs::remove_file(rt, &name);
            DiskDraft::Refused(error)
        }
    }
}

// Renames the file to the path, or writes what was kept of it there. One beside goes where that fails.
fn put_there<R: Files>(rt: &R, path: &str, draft: DiskDraft<R::File>) -> io::Result<()> {
    match draft {
        DiskDraft::Beside {
            name,
            file,
            written,
        } => {
            let filled = written.and_then(|_| sent_on(file));
            let renamed = filled.and_then(|_| fs::rename(rt, &name, path));
            if renamed.is_err() {
                let _ = fs::remove_file(rt, &name);
            }
            renamed
        }
        DiskDraft::Kept(bytes) => fs::write(rt, path, bytes),
        DiskDraft::Refused(error) => Err(error),
    }
}

fn sent_on<F: Write + Drop>(mut file: BufWriter<F>) -> io::Result<()> {
    file.flush()
}

// Whether a file could be put in the place of that of the path: by one that is made beside it, gets a block and goes
// again, or else by what the system says of one that is written in place.
fn tried<R: Files + AllocGlobal>(rt: &R, path: &str) -> io::Result<()> {
    match draft_of(rt, path) {
        DiskDraft::Beside { name, file, .. } => {
            let filled = block_written(file);
            let _ = fs::remove_file(rt, &name);
            filled
        }
        DiskDraft::Kept(_) => tried_in_place(rt, path),
        DiskDraft::Refused(error) => Err(error),
    }
}

fn block_written<F: Write + Drop>(mut file: F) -> io::Result<()> {
    file.write_all(&[b'\n'; BLOCK])?;
    file.flush()
}

// The same of a file that is written in place. One that is there is only opened, and a device or a pipe not even that.
fn tried_in_place<R: Files>(rt: &R, path: &str) -> io::Result<()> {
    match fs::metadata(rt, path) {
        Ok(found) if found.is_dir() => Err(Error::from(ErrorKind::IsADirectory)),
        Ok(found) if found.is_file() => {
            let mut how = OpenOptions::new();
            how.write(true);
            how.open(rt, path).map(|_| ())
        }
        Ok(_) => Ok(()),
        Err(error) if error.kind() == ErrorKind::NotFound => made_once(rt, path),
        Err(error) => Err(error),
    }
}

// Whether a file can be made where none is; it goes again. Of a link to nothing this is not tried.
fn made_once<R: Files>(rt: &R, path: &str) -> io::Result<()> {
    match File::create_new(rt, path) {
        Ok(file) => {
            let filled = block_written(file);
            let _ = fs::remove_file(rt, path);
            filled
        }
        Err(error) if error.kind() == ErrorKind::AlreadyExists => Ok(()),
        Err(error) => Err(error),
    }
}

/// A file of the system that is made piece by piece.
#[derive(Drop)]
pub enum DiskDraft<F: Write + Drop> {
    /// It is written beside the one that it is to take the place of.
    Beside {
        /// Its own name.
        name: String,
        /// The file.
        file: BufWriter<F>,
        /// Whether all of it could be written so far.
        written: io::Result<()>,
    },
    /// It is kept in memory, to be written in place.
    Kept(Vec<u8>),
    /// It can't be written, for this reason.
    Refused(Error),
}

impl<F: Write + Drop> FileDraft for DiskDraft<F> {
    fn add(&mut self, bytes: &[u8]) -> Result<(), AllocError> {
        match self {
            DiskDraft::Beside { file, written, .. } => {
                if written.is_ok() {
                    *written = file.write_all(bytes);
                }
                Ok(())
            }
            DiskDraft::Kept(kept) => kept.extend_from_slice(bytes),
            DiskDraft::Refused(_) => Ok(()),
        }
    }
}
