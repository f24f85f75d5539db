//! The name of a trail, in the proofs.
use std::marker::Brand;

/// The trait of a trail's name, which says in the proofs which trail it is. Values that have to agree on a trail are
/// generic in its name, because of a value under a lock nothing is known but its type. Each call of a function that
/// takes a trail picks its name.
pub trait Name {
    ghost use Rattle.logbook.specs.Pages.{Book};

    ghost trail: { Book };
}

impl Name for Brand {
    ghost trail = { record { number = 0; log_name = 0; cells_name = 0 } };
}
