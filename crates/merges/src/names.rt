//! Logs of one incarnation of an actor.
ghost use Rattle.std.specs.Prelude.{◌≡◌, ◌<◌, ◌≤◌, true, false, ℕ, length, slice_index_or, MatchOption};
ghost use Rattle.merges.specs.rule.Merges.{LogFields, AreOfDifferent, is_of};

use crate::{Log, same_actor};
use messages::Actor;

/// The name of a log that another log has, too.
pub(crate) fn second_of_two(logs: &[Log]) -> Option<(Actor, u16)>
    ensures { MatchOption result (AreOfDifferent logs.now) (λ _. ¬ AreOfDifferent logs.now) }
{
    for index in 0..logs.len() {
        let log = &logs[index];
        if has_log(logs, index, log.actor(), log.incarnation()) {
            return Some((log.actor(), log.incarnation()));
        }
    }
    None
}

// Whether one of the first logs, that many, has this name.
fn has_log(logs: &[Log], count: usize, actor: Actor, incarnation: u16) -> bool
    requires { count ≤ length logs.now }
    ensures yes { result ≡ true → (k : ℕ) × (k < count) × ((d : LogFields) → is_of (slice_index_or logs.now k d) actor incarnation ≡ true) }
    ensures no { result ≡ false → (k : ℕ) (d : LogFields) → k < count → is_of (slice_index_or logs.now k d) actor incarnation ≡ false }
{
    for index in 0..count {
        let log = &logs[index];
        if same_actor(log.actor(), actor) && log.incarnation() == incarnation {
            return true;
        }
    }
    false
}
