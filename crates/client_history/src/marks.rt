//! Marks, which say which calls stand in an order.
ghost use Rattle.std.specs.Prelude.{◌≡◌, IfOk, IfSome, None};
ghost use Rattle.client_history.specs.rule.Explained.{AreWithin, IsOnce};
ghost use Rattle.client_history.specs.code.Moves.{AreMarks};

use std::alloc::{AllocError, Global};

/// The marks of `count` calls: for each, by its index, whether it stands in the order. `None` where an index of the
/// order is none of theirs, or stands there twice.
///
/// # Errors
/// `AllocError` where a request for memory was refused.
pub(crate) fn marks_of(
    alloc: Global,
    order: &[usize],
    count: usize,
) -> Result<Option<Vec<bool>>, AllocError>
    ensures some { IfOk result (λ found. IfSome found (λ marks. AreMarks order.now count marks.items)) }
    ensures none { IfOk result (λ found. found ≡ None → AreWithin count order.now → IsOnce order.now → ⊥) }
{
    let mut marks = Vec::from_elem(alloc, false, count)?;
    for i in order {
        if *i >= count || marks[*i] {
            return Ok(None);
        }
        marks[*i] = true;
    }
    Ok(Some(marks))
}
