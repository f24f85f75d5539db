//! The two ranges of a token request.
ghost use Rattle.std.specs.Prelude.{◌≡◌, ◌≤◌};

use intervals::span::Span;
use std::marker::Model;

/// The required range of a token request, the bytes that the call needs, and the desired range, the
/// bytes that the node would like to have, which contains it (Schmuck and Haskin, FAST 2002).
#[derive(Clone, Copy, PartialEq, Eq, Hash)]
pub struct Wanted {
    pub required: Span,
    pub desired: Span,
}

impl Model for Wanted {
    ghost use Rattle.std.specs.Prelude.{◌≤◌};
    ghost use Rattle.messages.specs.rule.TokenRuns.{Wants};

    ghost Value = { Wants };

    ghost view = { λ w. record { required = w.required; desired = w.desired } };

    ghost invariant = { λ w. (w.desired.lo ≤ w.required.lo) × (w.required.hi ≤ w.desired.hi) };

    ghost inverse = { λ w. record { required = w.required; desired = w.desired } };
}

impl Wanted {
    /// The two ranges of a token request; the desired one is known to contain the required one.
    pub fn new(required: Span, desired: Span) -> Wanted
        requires starts_within { desired.lo ≤ required.lo }
        requires ends_within { required.hi ≤ desired.hi }
        ensures { result ≡ record { required = required; desired = desired } }
    {
        Wanted { required, desired }
    }
}
