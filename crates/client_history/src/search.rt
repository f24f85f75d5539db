//! The search for an order of calls that explains a history.
ghost use Rattle.std.specs.Prelude.{◌≡◌, ◌<◌, ◌≤◌, ◌++◌, ◌∷◌, [], ℕ, IfOk, List, length, slice_get, Some};
ghost use Rattle.model.specs.rule.Locks.{no_locks};
ghost use Rattle.lock_table.specs.rule.Tables.{held};
ghost use Rattle.client_history.specs.declared.client_call.ClientCall.{ClientCall as SomeCall};
ghost use Rattle.client_history.specs.declared.search_front.SearchFront.{SearchFront as SomeSearchFront};
ghost use Rattle.client_history.specs.declared.moment.Moment.{Moment as SomeMoment};
ghost use Rattle.client_history.specs.code.Moves.{AreByTime};
ghost use Rattle.client_history.specs.code.OpenCalls.{AreOwnerCalls};
ghost use Rattle.client_history.specs.code.Search.{GoesTo, GoesPast, AreSound};
ghost use Rattle.client_history.specs.rule.Explained.{IsSearched};

use crate::{
    CallEnding, ClientCall, Moment, OpenClientCall, OwnerCalls, Paths, SearchFront, Verdict,
    ask_each, begins_of, ends_of, forget_each, over_of, settle, without,
};
use std::alloc::{AllocError, Global};

/// The calls of a history, the facts of their owners, and their begins by time.
#[derive(Clone, Copy)]
pub(crate) struct Begins<'a> {
    pub calls: &'a [ClientCall],
    pub owners: &'a OwnerCalls,
    pub moments: &'a [Moment],
}

// Lets the calls begin that do so by that time, from the one with the number `from` on. One that only asks is taken
// at each front that allows it. Gives the open calls with these, and the number of those that have begun.
fn begin_by(
    begins: &Begins,
    from: usize,
    time: u64,
    open: Vec<OpenClientCall>,
    fronts: &mut [SearchFront],
    paths: &mut Paths,
) -> Result<(Vec<OpenClientCall>, usize), AllocError>
    requires { AreOwnerCalls begins.now.calls.now begins.now.owners.now }
    ensures len { length fronts.new ≡ length fronts.old }
    ensures to { IfOk result (λ r. GoesTo time from «open».items fronts.old r.1 r.0.items fronts.new begins.now.calls.now begins.now.moments.now) }
    ensures later { IfOk result (λ r. AreByTime begins.now.moments.now → (k : ℕ) (moment : SomeMoment) → r.1 ≤ k → slice_get begins.now.moments.now k ≡ Some moment → time < moment.time) }
{
    let mut open = open;
    let mut next = from;
    while let Some(moment) = begins.moments.get(next) {
        if time < moment.time {
            break;
        }
        if let Some(call) = begins.calls.get(moment.call) {
            let one = OpenClientCall {
                index: moment.call,
                call: *call,
                exit: begins.owners.exit_of(call.owner),
            };
            ask_each(fronts, &one, paths)?;
            open.push(one)?;
        }
        next += 1;
    }
    Ok((open, next))
}

// Lets the call `end` end: each front goes on until it has taken the call, while steps are left, and calls that are
// over are dropped. Gives the calls that are still open.
fn end(
    alloc: Global,
    end: usize,
    open: &[OpenClientCall],
    fronts: &mut Vec<SearchFront>,
    paths: &mut Paths,
    left: &mut u64,
) -> Result<Vec<OpenClientCall>, AllocError>
    ensures { IfOk result (λ still. 0 < left.new → GoesPast end «open».now fronts.old.items still.items fronts.new.items) }
{
    let old = std::mem::replace(fronts, Vec::new(alloc));
    let ending = CallEnding { alloc, open, end };
    let mut new = settle(&ending, old, paths, left)?;
    let over = over_of(alloc, open, end)?;
    forget_each(&mut new, &over);
    *fronts = new;
    let still = without(alloc, open, &over)?;
    Ok(still)
}

// The numbers of the last steps of the ways to the first three fronts.
fn some_ends(fronts: &[SearchFront]) -> [usize; 3] {
    let mut ends = [0; 3];
    for place in 0..3 {
        if let Some(front) = fronts.get(place) {
            ends[place] = front.path();
        }
    }
    ends
}

// The ways with these last steps.
fn ways_to(alloc: Global, paths: &Paths, ends: [usize; 3]) -> Result<Vec<Vec<usize>>, AllocError> {
    let mut ways = Vec::new(alloc);
    for end in &ends {
        if *end > 0 || ways.is_empty() {
            ways.push(paths.order_of(*end)?)?;
        }
    }
    Ok(ways)
}

/// Looks for an order of the calls that explains them, at `steps` tables at most. `explains` has to confirm an order
/// that it finds.
///
/// # Errors
/// `AllocError` where a request for memory was refused.
pub(crate) fn look_for_order(
    alloc: Global,
    calls: &[ClientCall],
    steps: u64,
) -> Result<Verdict, AllocError>
    requires { AreSound calls.now }
    ensures { IfOk result (λ verdict. IsSearched calls.now verdict) }
{
    let owners = OwnerCalls::new(alloc, calls)?;
    let moments = begins_of(alloc, calls, &owners)?;
    let ends = ends_of(alloc, calls)?;
    let begins = Begins {
        calls,
        owners: &owners,
        moments: &moments,
    };
    let mut open = Vec::new(alloc);
    let mut fronts = first_fronts(alloc)?;
    let mut paths = Paths::new(alloc);
    let mut left = steps;
    let mut begun = 0;
    for end_of in &ends {
        (open, begun) = begin_by(&begins, begun, end_of.time, open, &mut fronts, &mut paths)?;
        let before = some_ends(&fronts);
        open = end(
            alloc,
            end_of.call,
            &open,
            &mut fronts,
            &mut paths,
            &mut left,
        )?;
        if left == 0 {
            return Ok(Verdict::Unknown { call: end_of.call });
        }
        if fronts.is_empty() {
            return Ok(Verdict::Unexplained {
                call: end_of.call,
                ways: ways_to(alloc, &paths, before)?,
            });
        }
    }
    order_of(&fronts, &paths, calls.len())
}

// The one front before all calls.
fn first_fronts(alloc: Global) -> Result<Vec<SearchFront>, AllocError>
    ensures { IfOk result (λ fronts. (front : SomeSearchFront) × (fronts.items ≡ front ∷ []) × (held front.table ≡ no_locks) × (front.taken.items ≡ [])) }
{
    let mut fronts = Vec::new(alloc);
    fronts.push(SearchFront::new(alloc))?;
    Ok(fronts)
}

// The way to one of the fronts that are left, after all calls have ended.
fn order_of(fronts: &[SearchFront], paths: &Paths, count: usize) -> Result<Verdict, AllocError>
    ensures { IfOk result (λ verdict. (calls : List SomeCall) → IsSearched calls verdict) }
{
    match fronts.first() {
        Some(front) => Ok(Verdict::Explained {
            order: paths.order_of(front.path())?,
        }),
        None => Ok(Verdict::Unknown { call: count }),
    }
}
