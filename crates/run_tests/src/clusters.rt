//! Clusters of tests, which run on threads.
ghost use Rattle.std.specs.Prelude.{◌≡◌, length};

use crate::gates::wait_for;
use actors::{Client, Cluster, Fair, Gate, OpenGate, Weather, with_cluster};
use book::{Confirms, Receipt};
use cluster_core::Journal;
use messages::Shape;
use model::{Access, Kind, LockCall, LockCommand, Mode, Op, Policy, ProcessCall};
use std::alloc::Global;
use std::marker::Brand;
use std::sync::Wait;
use std::sync::atomic::{AtomicU64, Ordering};
use std::test::Fail;
use std::thread;
use std::thread::Threads;
use std::time::Clock;

/// A cluster as it is lent to a test.
pub type Lent<'a> = Cluster<'a, Brand, OpenGate>;

/// A client of it.
pub type Caller<'a> = Client<'a, Brand, OpenGate>;

/// A lock of a process on descriptor 0.
pub fn lock(mode: Mode, start: i64, len: i64) -> Op {
    Op::Lock(LockCall {
        command: LockCommand::Set,
        fd: 0,
        kind: Kind::OfProcess,
        mode,
        start,
        len,
    })
}

/// A write lock of a process on descriptor 0.
pub fn set(start: i64, len: i64) -> Op {
    lock(Mode::Write, start, len)
}

/// Clients of process 1 of node 1, and of process 2 of that node.
pub fn clients<'a, R: Wait>(
    rt: &R,
    cluster: &Lent<'a>,
    node: u8,
) -> Option<(Caller<'a>, Caller<'a>)> {
    let one = cluster.client(rt, 1, 1).ok()?;
    Some((one, cluster.client(rt, node, 2).ok()?))
}

/// The process begins, opens file 1 and sets a lock.
pub fn begin<R: Wait>(rt: &R, client: &mut Caller<'_>, op: Op) -> Option<Receipt> {
    client.call(rt, Op::Process(ProcessCall::Spawn)).ok()?;
    let open = Op::Process(ProcessCall::Open {
        file: 1,
        access: Access::ReadWrite,
    });
    client.call(rt, open).ok()?;
    client.call(rt, op).ok()
}

/// Runs a cluster of two nodes and one file, under these weathers, for as long as the body does. Whether what the body made is
/// right, by the journal.
pub fn runs_right<
    R: Threads + Wait + Clock + Sync,
    G: Gate + Sync,
    W: Weather + Send,
    T,
    F: FnOnce(&Lent<'_>) -> Option<T>,
    L: FnOnce(T, &Journal) -> bool,
>(rt: &R, alloc: Global, gate: &G, weathers: Vec<W>, body: F, is_right: L) -> Result<bool, Fail>
    requires each { length weathers.items ≡ 3 }
    requires body { F.IsAlwaysCallable body }
    requires is_right { L.IsAlwaysCallable is_right }
{
    let shape = Shape::new(2, 1, Policy::Exact)?;
    let (made, journal) = with_cluster(rt, alloc, shape, gate, weathers, body)?;
    match made {
        Some(made) => Ok(is_right(made, &journal)),
        None => Ok(false),
    }
}

/// The same as `runs_right`, in fair weather.
pub fn runs_fairly<
    R: Threads + Wait + Clock + Sync,
    G: Gate + Sync,
    T,
    F: FnOnce(&Lent<'_>) -> Option<T>,
    L: FnOnce(T, &Journal) -> bool,
>(rt: &R, alloc: Global, gate: &G, body: F, is_right: L) -> Result<bool, Fail>
    requires body { F.IsAlwaysCallable body }
    requires is_right { L.IsAlwaysCallable is_right }
{
    let weathers = vec![in alloc; Fair, Fair, Fair]?;
    runs_right(rt, alloc, gate, weathers, body, is_right)
}

/// What the calls made, if they end within 10,000 turns. Else both nodes fail and begin again, so that no call goes on.
pub fn in_time<R: Threads + Wait + Clock + Sync, T: Drop + Send, F: FnOnce() -> Option<T> + Send>(
    rt: &R,
    cluster: &Lent<'_>,
    calls: F,
) -> Option<T>
    requires { F.IsAlwaysCallable calls }
{
    let ended = AtomicU64::new(0);
    let (made, is_late) = thread::join(
        rt,
        || {
            let made = calls();
            ended.store(1, Ordering::SeqCst);
            made
        },
        || {
            let is_late = !wait_for(rt, &ended);
            if is_late {
                end_calls(rt, cluster);
            }
            is_late
        },
    );
    if is_late { None } else { made }
}

// Both nodes fail and begin again.
fn end_calls<R: Wait>(rt: &R, cluster: &Lent<'_>) {
    for node in 1..3 {
        let _ = cluster.declare(rt, node);
        let _ = cluster.restart(rt, node);
    }
}

/// Whether the journal holds each receipt.
pub fn holds_all(journal: &Journal, receipts: &[Receipt]) -> bool {
    receipts.iter().all(|receipt| journal.holds(receipt))
}
