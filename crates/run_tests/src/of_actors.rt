//! Clusters on threads, where a gate holds an actor or a node is declared failed meanwhile.
use crate::clusters::{Caller, Lent, begin, clients, holds_all, runs_fairly, set};
use crate::gates::Holder;
use actors::CallError;
use book::{Confirms, Receipt};
use cluster_core::Journal;
use messages::{Event, MemberEvent};
use model::{Kind, Op, ProcessCall};
use std::sync::Wait;
use std::test::Fail;
use std::thread;
use std::thread::Threads;
use std::time::Clock;

// Gives a lock up.
fn unlock(start: i64, len: i64) -> Op {
    Op::Unlock {
        fd: 0,
        kind: Kind::OfProcess,
        start,
        len,
    }
}

// Node 2 makes a call while a call of node 1 is held at the gate.
fn call_beside<R: Threads + Wait + Clock + Sync>(
    rt: &R,
    gate: &Holder<'_, R>,
    one: &mut Caller<'_>,
    two: &mut Caller<'_>,
) -> Option<[Receipt; 4]> {
    let first = begin(rt, one, set(0, 10))?;
    two.told(&first);
    let second = begin(rt, two, set(20, 10))?;
    gate.arm();
    let (third, fourth) = thread::join(
        rt,
        || one.call(rt, unlock(0, 10)),
        || two.call(rt, set(20, 5)),
    );
    Some([first, second, third.ok()?, fourth.ok()?])
}

#[test]
fn a_node_commits_while_another_is_held(rt: HostRuntime) -> Result<(), Fail> {
    let gate = Holder::new(&rt, false);
    let is_right = runs_fairly(
        &rt,
        rt.alloc(),
        &gate,
        |cluster| {
            let (mut one, mut two) = clients(&rt, cluster, 2)?;
            call_beside(&rt, &gate, &mut one, &mut two)
        },
        |receipts, journal| holds_all(journal, &receipts),
    )?;
    assert!(rt; is_right && gate.was_let_go());
    Ok(())
}

// Declares node 1 failed while its step is held at the gate: whether the call has no reply.
fn declare_beside<R: Threads + Wait + Clock + Sync>(
    rt: &R,
    gate: &Holder<'_, R>,
    cluster: &Lent<'_>,
    client: &mut Caller<'_>,
) -> bool {
    let (refused, is_declared) = thread::join(
        rt,
        || client.call(rt, Op::Process(ProcessCall::Spawn)).err(),
        || {
            let came = gate.wait_for_node();
            let is_declared = cluster.declare(rt, 1).is_ok();
            gate.let_go();
            came && is_declared
        },
    );
    is_declared && refused == Some(CallError::Fenced)
}

// Whether node 1 is declared failed in the journal, and there is no call.
fn has_no_call(journal: &Journal) -> bool {
    let entries = journal.entries();
    entries.iter().any(|entry| matches!(
        entry.event(),
        Event::Member(MemberEvent::Declare { node: 1 })
    )) && entries.iter().all(|entry| entry.call().is_none())
}

#[test]
fn a_step_of_a_declared_node_is_not_taken(rt: HostRuntime) -> Result<(), Fail> {
    let gate = Holder::new(&rt, false);
    gate.arm();
    let is_right = runs_fairly(
        &rt,
        rt.alloc(),
        &gate,
        |cluster| {
            let mut client = cluster.client(&rt, 1, 1).ok()?;
            Some(declare_beside(&rt, &gate, cluster, &mut client))
        },
        |is_refused, journal| is_refused && has_no_call(journal),
    )?;
    assert!(rt; is_right);
    Ok(())
}
