//! A lock as the listing of a cluster's locks shows it.
use model::LockInfo;

/// A region of a file, counted from 1, that an owner on a live node holds.
#[derive(Clone, Copy, Debug, PartialEq, Eq)]
pub struct HeldLock {
    pub file: u16,
    pub lock: LockInfo,
}
