//! The access modes with which files are opened.

/// How a file was opened. (POSIX.1-2017 `open()`, O_RDONLY, O_WRONLY and O_RDWR.)
#[derive(Clone, Copy, Debug, PartialEq, Eq)]
pub enum Access {
    ReadOnly,
    WriteOnly,
    ReadWrite,
}
