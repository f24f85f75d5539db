//! The histories that the clients of a run saw, as text.
use crate::clients::clients_of;
use crate::text_of_call::push_call;
use cluster_core::Journal;
use std::alloc::{AllocError, Global};

/// The calls that the clients of the journal's run saw, as the text of a client history (docs/FORMATS.md), one line
/// for a call about a file. Times are positions of entries, from 1. An owner is `N.I.pPID` or `N.I.dNUMBER`, a file
/// its number.
///
/// # Errors
/// `AllocError` where a request for memory was refused.
pub fn clients_text(alloc: Global, journal: Journal) -> Result<String, AllocError> {
    let seen = clients_of(alloc, &journal)?;
    let mut out = String::new(alloc);
    out.push_str("history 1 clock order\n")?;
    for call in seen.as_slice() {
        push_call(&mut out, call)?;
    }
    Ok(out)
}
