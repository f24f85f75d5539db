//! The rule that the words of a trail keep, and their one step.
use logbook::{Gain, Plain, Play, Rule};

/// The rule of a trail's two words: the first is the length of the list, the second 0.
pub(crate) struct Law;

impl<E> Rule<E, u64> for Law {
    ghost use Rattle.std.specs.Prelude.{[]};
    ghost use base.Fml.{ftrue};
    ghost use Rattle.book.specs.rule.Trails.{IsKept};

    ghost holds = { λ cells log. IsKept cells log };

    ghost first = { [] };

    ghost hinted = { λ n log. Unit {0} };

    ghost shows = { λ log. [] };

    ghost keeps = { λ names log. ftrue };

    ghost moves = { λ ask before after answer. Unit {0} };
}

/// The trade of a trail, which trades nothing.
pub(crate) struct Nothing;

impl<E> Gain<E, u64> for Nothing {
    ghost use base.Fml.{ftrue};

    ghost after = { λ names about answer. ftrue };
}

/// The step that appends an item.
pub(crate) struct Add;

impl<E> Play<E, u64> for Add {
    ghost use Rattle.book.specs.rule.Trails.{Adds};

    ghost then = { Adds };
}

impl<E> Plain<E, E, u64> for Add {
    ghost use Rattle.std.specs.Prelude.{None};

    ghost ask = { λ item. item };

    ghost state = { λ item. None };
}
