//! Walks over the slots of a line.
ghost use Rattle.std.specs.Prelude.{◌≡◌, ◌↔◌, ◌<◌, ◌≤◌, IsTrue, length, drop, is_some, true};
ghost use Rattle.token_server.specs.rule.Requests.{requests_in};
ghost use Rattle.token_server.specs.code.Admissions.{request_at};

use crate::token_queue::token_request::TokenRequest;

/// The index of the first slot at `from` or behind it that holds a request; the number of slots, if none does.
pub fn first_from(slots: &[Option<TokenRequest>], from: usize) -> usize
    requires { from ≤ length slots.now }
    ensures after { from ≤ result }
    ensures within { result ≤ length slots.now }
    ensures rest { requests_in (drop result slots.now) ≡ requests_in (drop from slots.now) }
    ensures holds { result < length slots.now → is_some (request_at slots.now result) ≡ true }
{
    let mut place = from;
    while place < slots.len() && slots[place].is_none() {
        place += 1;
    }
    place
}

/// Whether both hold equal requests in equal order. Empty slots don't count.
pub fn same_requests(slots: &[Option<TokenRequest>], others: &[Option<TokenRequest>]) -> bool
    ensures { IsTrue result ↔ (requests_in slots.now ≡ requests_in others.now) }
{
    let mut here = first_from(slots, 0);
    let mut there = first_from(others, 0);
    while here < slots.len() && there < others.len() {
        if slots[here] != others[there] {
            return false;
        }
        here = first_from(slots, here + 1);
        there = first_from(others, there + 1);
    }
    here == slots.len() && there == others.len()
}
