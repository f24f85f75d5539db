//! A deed: what a call does to the locks of a file.
use client_history::Act;
use model::Owner;

/// The act on the locks of a file, and the owner that made it.
#[derive(Clone, Copy)]
pub(crate) struct Deed {
    pub(crate) file: u16,
    pub(crate) owner: Owner,
    pub(crate) act: Act,
}
