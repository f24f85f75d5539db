//! A cluster on threads, in which a node is declared failed while its process waits for a lock.
use crate::clusters::{Caller, Lent, begin, clients, runs_fairly, set};
use actors::{CallError, OpenGate};
use book::{Confirms, Receipt};
use cluster_core::Journal;
use messages::{Event, NodeInput};
use model::{Kind, LockCall, LockCommand, Mode, Op, ProcessCall};
use std::sync::Wait;
use std::test::Fail;
use std::thread;
use std::thread::Threads;
use std::time::{Clock, Duration};

// A wait of a process for the first ten bytes.
const WAIT: Op = Op::Lock(LockCall {
    command: LockCommand::Wait,
    fd: 0,
    kind: Kind::OfProcess,
    mode: Mode::Write,
    start: 0,
    len: 10,
});

// Whether the call ended without a reply, and is the wait of process 2 of node 2 where it says that it stands.
fn is_wait_at(journal: &Journal, why: Option<CallError>) -> bool {
    let Some(CallError::Killed { call_at }) = why else {
        return false;
    };
    match journal.entries().get(call_at.saturating_sub(1) as usize) {
        Some(entry) => matches!(
            entry.event(),
            Event::AtNode(
                2,
                NodeInput::Call {
                    pid: 2,
                    op: Op::Lock(LockCall {
                        command: LockCommand::Wait,
                        ..
                    })
                }
            )
        ),
        None => false,
    }
}

// Declares node 2 failed while its process waits: why the wait ended.
fn declare_beside_wait<R: Threads + Wait + Clock + Sync>(
    rt: &R,
    cluster: &Lent<'_>,
    two: &mut Caller<'_>,
) -> Option<CallError> {
    let (ended, _) = thread::join(
        rt,
        || two.call(rt, WAIT).err(),
        || {
            thread::sleep(rt, Duration::from_millis(50));
            cluster.declare(rt, 2).is_ok()
        },
    );
    ended
}

// Whether a call of the declared node is refused.
fn is_fenced<R: Wait>(rt: &R, client: &mut Caller<'_>) -> bool {
    client.call(rt, Op::Process(ProcessCall::Spawn)).err() == Some(CallError::Fenced)
}

// Whether process 2 of node 2, which has a client of this incarnation, gets no second one.
fn has_client<R: Wait>(rt: &R, cluster: &Lent<'_>) -> bool {
    cluster.client(rt, 2, 2).err() == Some(CallError::Busy)
}

// Node 2 fails while a process waits for a lock of node 1, which is refused then and later, and begins again: why the wait ended, and the
// receipt of the next incarnation.
fn wait_until_failure<R: Threads + Wait + Clock + Sync>(
    rt: &R,
    cluster: &Lent<'_>,
    one: &mut Caller<'_>,
    two: &mut Caller<'_>,
) -> Option<(Option<CallError>, Receipt)> {
    if !has_client(rt, cluster) {
        return None;
    }
    let held = begin(rt, one, set(0, 10))?;
    two.told(&held);
    begin(rt, two, set(20, 10))?;
    let ended = declare_beside_wait(rt, cluster, two);
    if !is_fenced(rt, two) || cluster.client(rt, 2, 2).err() != Some(CallError::Fenced) {
        return None;
    }
    cluster.restart(rt, 2).ok()?;
    let mut again = cluster.client(rt, 2, 2).ok()?;
    if !has_client(rt, cluster) {
        return None;
    }
    let receipt = again.call(rt, Op::Process(ProcessCall::Spawn)).ok()?;
    is_fenced(rt, two).then_some((ended, receipt))
}

// Whether the receipt is that of the first call of a node's second incarnation.
fn is_first_again(receipt: &Receipt) -> bool {
    let call = receipt.call();
    call.incarnation == 2 && call.number == 1
}

#[test]
fn a_wait_ends_as_its_node_is_declared(rt: HostRuntime) -> Result<(), Fail> {
    let is_right = runs_fairly(
        &rt,
        rt.alloc(),
        &OpenGate,
        |cluster| {
            let (mut one, mut two) = clients(&rt, cluster, 2)?;
            wait_until_failure(&rt, cluster, &mut one, &mut two)
        },
        |(ended, receipt), journal| {
            is_wait_at(journal, ended) && journal.holds(&receipt) && is_first_again(&receipt)
        },
    )?;
    assert!(rt; is_right);
    Ok(())
}
