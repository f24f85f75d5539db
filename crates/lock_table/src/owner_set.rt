//! Sets of owners that can have more owners than were added.
ghost use Rattle.std.specs.Prelude.{◌≡◌, ◌<◌, ◌≤◌, IsTrue, ◌↔◌};
ghost use Rattle.model.specs.declared.owner.Owner.{Owner as SomeOwner};
ghost use Rattle.lock_table.specs.code.Rows.{flag_of, Has, mark_of};

use crate::flag_set::FlagSet;
use model::Owner;

/// A set of owners. Each owner has one of 256 flags, which it shares with others, so the set can
/// have more owners than were added.
#[derive(Clone, Copy)]
pub struct OwnerSet {
    flags: FlagSet,
}

/// The flag of an owner, 0 to 255.
pub(crate) fn flag_of(owner: Owner) -> usize
    ensures result { result ≡ flag_of owner }
    ensures within { result < 256 }
{
    (owner.node as usize * 32 + owner.number as usize) % 256
}

/// The number by which the rows of a table stand: by file, and in a file by the owner's flag.
#[inline]
pub(crate) fn mark_of(file: u16, owner: Owner) -> usize
    ensures { result ≡ mark_of file owner }
{
    file as usize * 256 + flag_of(owner)
}

impl OwnerSet {
    /// The set without owners.
    pub(crate) fn none() -> Self
        ensures { (o : SomeOwner) → Has result o → ⊥ }
    {
        OwnerSet {
            flags: FlagSet::none(),
        }
    }

    /// The set of all owners.
    pub(crate) fn all() -> Self
        ensures { (o : SomeOwner) → Has result o }
    {
        OwnerSet {
            flags: FlagSet::all(),
        }
    }

    /// Whether the set has the owner.
    pub(crate) fn has(&self, owner: Owner) -> bool
        ensures { IsTrue result ↔ Has self.now owner }
    {
        self.flags.has(flag_of(owner))
    }

    /// The lowest flag, from this one, 0 to 255, on, that an owner of the set has; 256 if there is
    /// none.
    pub(crate) fn next(&self, flag: usize) -> usize
        requires { flag < 256 }
        ensures none_below { (o : SomeOwner) → flag ≤ flag_of o → flag_of o < result → Has self.now o → ⊥ }
        ensures within { result ≤ 256 }
    {
        self.flags.next(flag)
    }

    /// Adds an owner.
    pub(crate) fn add(&mut self, owner: Owner)
        ensures kept { (o : SomeOwner) → Has self.old o → Has self.new o }
        ensures added { Has self.new owner }
    {
        self.flags.add(flag_of(owner));
    }

    /// Adds the owners of another set.
    pub(crate) fn join(&mut self, other: &OwnerSet)
        ensures kept { (o : SomeOwner) → Has self.old o → Has self.new o }
        ensures joined { (o : SomeOwner) → Has other.now o → Has self.new o }
    {
        self.flags.join(&other.flags);
    }
}
