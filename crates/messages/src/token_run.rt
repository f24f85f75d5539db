//! The longest runs of tokens, as reports name them.
//!
//! Each function here that can fail errs with `AllocError`, where a request for memory was refused.
ghost use Rattle.std.specs.Prelude.{◌≡◌, ◌↔◌, true, IfOk, IfSome, IsSome, IsTrue, map};
ghost use Rattle.messages.specs.rule.TokenRuns.{are_longest, may_follow, run_of};

use intervals::span::Span;
use model::Level;
use std::alloc::{AllocError, Global};
use std::hash::{Hash, Hasher};
use std::marker::Model;

/// A longest run of bytes at which a token has one level.
#[derive(Clone, Copy, PartialEq, Eq)]
pub struct TokenRun {
    pub span: Span,
    pub level: Level,
}

/// The longest runs of a token, in ascending order. Contracts see their list.
#[derive(Drop)]
pub struct TokenRuns {
    runs: Vec<TokenRun>,
}

impl Model for TokenRuns {
    ghost use Rattle.std.specs.Prelude.{◌≡◌, true, List};
    ghost use Rattle.messages.specs.declared.token_run.TokenRun.{TokenRun};
    ghost use Rattle.messages.specs.rule.TokenRuns.{are_longest};

    ghost Value = { List TokenRun };

    ghost view = { λ a. a.runs.items };

    ghost invariant = { λ a. are_longest a.runs.items ≡ true };
}

impl Clone for TokenRuns {
    ghost use Rattle.std.specs.Prelude.{◌≡◌};

    ghost is_clone = { λ a b. b ≡ a };

    fn clone(&self) -> Result<TokenRuns, AllocError> {
        Ok(TokenRuns {
            runs: self.runs.clone()?,
        })
    }
}

impl PartialEq for TokenRuns {
    ghost use Rattle.std.specs.Cmp.Lexicographic.{lists_per, pointwise};
    ghost use Rattle.messages.specs.contracts.token_run.TokenRunPartialEq.TheImpl.Laws.{laws-law};

    ghost eq = { pointwise ⟦<TokenRun as PartialEq>⟧.eq };

    ghost laws = { lists_per laws-law };

    fn eq(&self, other: &TokenRuns) -> bool {
        self.runs == other.runs
    }
}

impl Eq for TokenRuns {
    ghost use Rattle.std.specs.Cmp.Lexicographic.{lists_equiv};
    ghost use Rattle.messages.specs.contracts.token_run.TokenRunEq.TheImpl.Laws.{laws-law};

    ghost laws = { lists_equiv laws-law };
}

// Reports of one node for one epoch are equal, so the hash of a report leaves out its runs.
impl Hash for TokenRuns {
    ghost use Rattle.std.specs.Prelude.{[], refl};

    ghost hash_input = { λ a. [] };

    ghost respects_eq = { λ a b same. refl };

    fn hash<H: Hasher>(&self, _state: &mut H) {}
}

impl TokenRun {
    /// Whether this run may come next behind the run `before`: it begins past the end of `before`,
    /// and has another level where the two are adjacent.
    pub fn may_follow(self, before: TokenRun) -> bool
        ensures { result ≡ may_follow before self }
    {
        let touches = self.span.lo == before.span.hi + 1;
        before.span.hi < self.span.lo && !(touches && self.level == before.level)
    }
}

// Whether these runs, in this order, are the longest runs of a token.
fn are_longest(runs: &[TokenRun]) -> bool
    ensures { result ≡ are_longest runs.now }
{
    let [first, rest @ ..] = runs else {
        return true;
    };
    let mut last = *first;
    for run in rest {
        if !run.may_follow(last) {
            return false;
        }
        last = *run;
    }
    true
}

impl TokenRuns {
    /// The list of these runs, which are known to be the longest runs of a token in ascending
    /// order.
    pub fn of(alloc: Global, runs: &[(Span, Level)]) -> Result<TokenRuns, AllocError>
        requires { are_longest (map run_of runs.now) ≡ true }
        ensures { IfOk result (λ made. made ≡ map run_of runs.now) }
    {
        let mut listed = Vec::with_capacity(alloc, runs.len())?;
        for (span, level) in runs {
            listed.push_reserved(TokenRun {
                span: *span,
                level: *level,
            });
        }
        Ok(TokenRuns { runs: listed })
    }

    /// The list of these runs, if they are the longest runs of a token in ascending order: each
    /// begins past the end of the one before it, and has another level where the two are adjacent.
    pub fn new(runs: Vec<TokenRun>) -> Option<TokenRuns>
        ensures value { IfSome result (λ made. made ≡ runs.items) }
        ensures longest { IsSome result ↔ (are_longest runs.items ≡ true) }
    {
        if are_longest(runs.as_slice()) {
            Some(TokenRuns { runs })
        } else {
            None
        }
    }

    /// The runs, in ascending order.
    pub fn as_slice(&self) -> &[TokenRun]
        ensures value { result.now ≡ self.now }
        ensures longest { are_longest self.now ≡ true }
    {
        self.runs.as_slice()
    }

    /// Whether both are equal lists of runs.
    pub fn same(&self, other: &TokenRuns) -> bool
        ensures { IsTrue result ↔ (self.now ≡ other.now) }
    {
        self == other
    }

    /// An equal list of runs.
    pub fn copy(&self, alloc: Global) -> Result<TokenRuns, AllocError>
        ensures { IfOk result (λ runs. runs ≡ self.now) }
    {
        Ok(TokenRuns {
            runs: Vec::from_slice(alloc, self.runs.as_slice())?,
        })
    }
}
