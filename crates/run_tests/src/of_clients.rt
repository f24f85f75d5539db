//! Clients on threads that are told of another cluster's receipt.
use crate::clusters::{Caller, clients, runs_fairly};
use crate::gates::Holder;
use actors::{CallError, Fair, Gate, OpenGate, with_cluster};
use book::{Confirms, Receipt};
use messages::Shape;
use model::{Op, Policy, ProcessCall};
use std::alloc::Global;
use std::sync::Wait;
use std::test::Fail;
use std::thread::Threads;
use std::time::Clock;

const SPAWN: Op = Op::Process(ProcessCall::Spawn);

// The receipt of the last of a thousand calls.
fn call_often<R: Wait>(rt: &R, client: &mut Caller<'_>) -> Option<Receipt> {
    let mut last = client.call(rt, SPAWN).ok()?;
    for _ in 1..1000 {
        last = client.call(rt, SPAWN).ok()?;
    }
    Some(last)
}

// A receipt of a cluster of its own, which has ended.
fn receipt_of_another<R: Threads + Wait + Clock + Sync>(
    rt: &R,
    alloc: Global,
) -> Result<Option<Receipt>, Fail> {
    let shape = Shape::new(2, 1, Policy::Exact)?;
    let weathers = vec![in alloc; Fair, Fair, Fair]?;
    let (receipt, _) = with_cluster(rt, alloc, shape, &OpenGate, weathers, |cluster| {
        let mut client = cluster.client(rt, 1, 1).ok()?;
        call_often(rt, &mut client)
    })?;
    Ok(receipt)
}

// Whether the call of a client that was told of the receipt, which stands behind the end of its own cluster's journal, is not taken: the
// client has seen no more then, and the next call, of another client, is the node's first.
fn is_stale<R: Threads + Wait + Clock + Sync, G: Gate + Sync>(
    rt: &R,
    alloc: Global,
    gate: &G,
    strange: &Receipt,
) -> Result<bool, Fail> {
    runs_fairly(
        rt,
        alloc,
        gate,
        |cluster| {
            let (mut told, mut other) = clients(rt, cluster, 1)?;
            told.told(strange);
            let refused = told.call(rt, SPAWN).err();
            let made = other.call(rt, SPAWN).ok()?;
            Some((refused, told.last(), made))
        },
        |(refused, last, made), journal| {
            refused == Some(CallError::Stale)
                && last == strange.reply_at()
                && made.call().number == 1
                && journal.holds(&made)
                && !journal.holds(strange)
        },
    )
}

#[test]
fn a_receipt_of_another_cluster_is_refused(rt: HostRuntime) -> Result<(), Fail> {
    let Some(strange) = receipt_of_another(&rt, rt.alloc())? else {
        assert!(rt; false);
        return Ok(());
    };
    let is_right = is_stale(&rt, rt.alloc(), &OpenGate, &strange)?
        && is_stale(&rt, rt.alloc(), &Holder::new(&rt, false), &strange)?;
    assert!(rt; is_right);
    Ok(())
}
