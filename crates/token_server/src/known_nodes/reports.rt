//! Tokens that nodes report to a token server that was rebuilt.
ghost use Rattle.std.specs.Prelude.{◌≡◌, IfOk};
ghost use Rattle.token_set.specs.rule.Tokens.{token_of};
ghost use Rattle.messages.specs.rule.Messages.{reported};
ghost use Rattle.token_server.specs.code.Rows.{mode_of};

use messages::TokenRuns;
use model::{Level, Mode};
use std::alloc::{AllocError, Global};
use token_set::set::TokenSet;

// The mode that a byte at the level is granted for: `Read` at shared, `Write` at exclusive.
fn mode_of(level: Level) -> Mode
    ensures { result ≡ mode_of level }
{
    match level {
        Level::Shared => Mode::Read,
        Level::Exclusive => Mode::Write,
    }
}

/// The token that consists of these runs.
///
/// # Errors
/// `AllocError` where a request for memory was refused.
pub fn token_told(alloc: Global, runs: &TokenRuns) -> Result<TokenSet, AllocError>
    ensures { IfOk result (λ token. token_of token ≡ reported runs.now) }
{
    let mut token = TokenSet::new(alloc);
    let runs = runs.as_slice();
    for place in 0..runs.len() {
        let run = runs[place];
        let span = run.span;
        let _ = &span.lo; // tells the proof that the span has a byte
        token.grant(span, mode_of(run.level))?;
    }
    Ok(token)
}
