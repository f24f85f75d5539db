//! The order of regions: by first byte, then by owner.
ghost use Rattle.std.specs.Prelude.{◌≡◌, ◌⊎◌, IfSome, IsSomeAnd};
ghost use Rattle.model.specs.rule.Locks.{IsNotAfter};
ghost use Rattle.lock_table.specs.code.Blockers.{lock_cmp};

use model::LockInfo;
use std::cmp::Ordering;

/// How region a stands to region b: by first byte, then by owner.
pub fn cmp_regions(a: &LockInfo, b: &LockInfo) -> Ordering
    ensures { result ≡ lock_cmp a.now b.now }
{
    a.span.lo.cmp(&b.span.lo).then(a.owner.cmp(&b.owner))
}

/// Keeps the region that was found, if it comes before the lowest one so far, or there is none so
/// far.
pub fn keep_lowest(lowest: &mut Option<LockInfo>, found: Option<LockInfo>)
    ensures either { (lowest.new ≡ lowest.old) ⊎ (lowest.new ≡ found) }
    ensures first { IfSome lowest.old (λ lock. IsSomeAnd lowest.new (λ least. IsNotAfter least lock)) }
    ensures second { IfSome found (λ lock. IsSomeAnd lowest.new (λ least. IsNotAfter least lock)) }
{
    let Some(lock) = &found else {
        return;
    };
    if let Some(least) = lowest {
        if cmp_regions(least, lock).is_le() {
            return;
        }
    }
    *lowest = found;
}
