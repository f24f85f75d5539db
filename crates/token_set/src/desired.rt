//! The desired range of a token request.
ghost use Rattle.std.specs.Prelude.{◌≡◌};
ghost use Rattle.token_set.specs.rule.Tokens.{desired};
ghost use Rattle.token_set.specs.rule.Tokens.{token_of};

use crate::set::TokenSet;
use intervals::span::{GREATEST, Span};
use model::Policy;

/// The bytes that a node requests with the ones that a call needs, under a policy. Under `Wide`
/// they are the whole file where the node holds no token of it, and else all bytes from the first
/// required one to the greatest offset; under `Exact` they are the required ones. (The desired
/// range of a token request: Schmuck and Haskin, FAST 2002.)
pub fn desired(policy: Policy, required: Span, token: &TokenSet) -> Span
    ensures { result ≡ desired policy (token_of token.now) required }
{
    match policy {
        Policy::Exact => required,
        Policy::Wide => {
            let lo = if token.holds_nothing() {
                0
            } else {
                required.lo
            };
            Span { lo, hi: GREATEST }
        }
    }
}
