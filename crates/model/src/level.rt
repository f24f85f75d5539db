//! The levels of tokens: what a token lets its node lock at a byte.
use intervals::span_map::Exact;

/// What a token lets its node lock at a byte: read locks only (`Shared`), or locks of either mode
/// (`Exclusive`).
#[derive(Clone, Copy, Debug, PartialEq, Eq)]
pub enum Level {
    Shared,
    Exclusive,
}

impl Exact for Level {
    ghost use Rattle.model.specs.declared.level.Level.TheVariants.{Shared, Exclusive};
    ghost use Rattle.std.specs.Prelude.{refl};
    ghost use Rattle.std.proofs.lemmas.Bool.{false≢true};

    ghost exact = { elim [ Shared ↦ elim [ Shared ↦ λ _. refl | Exclusive ↦ λ h. absurd (false≢true h) ] | Exclusive ↦ elim [ Shared ↦ λ h. absurd (false≢true h) | Exclusive ↦ λ _. refl ] ] };
}
