//! Two nodes and one token server in a program of its own, which carries the messages between them, each as a line
//! of text. Each has an inbox, and one letter is read at a time. Each fifth message is lost; ticks of a clock make
//! good for it. A call waits for a lock of the other node, and gets it. Then a node dies with a lock that a call
//! waits for.
//!
//! What is proved of every run of a cluster holds of such a program where it keeps the premises of the README. `Members`
//! of the crate `messages` keeps count of incarnations. The law of the one history is of runs of any length; `World` and
//! `Run`, which keep a journal, end at 1,048,576 entries.
//!
//! Simpler than it could be: each node has one clock for all its open calls, and no call is tried again at
//! once where a lock of its own node goes.
#![tactic(auto)]

mod embedded_cluster;
mod letter;
mod node_seat;
mod office;

use crate::embedded_cluster::EmbeddedCluster;
use model::{Access, Kind, LockCall, LockCommand, Mode, Op, ProcessCall};

const OPEN: Op = Op::Process(ProcessCall::Open {
    file: 1,
    access: Access::ReadWrite,
});

const UNLOCK: Op = Op::Unlock {
    fd: 0,
    kind: Kind::OfProcess,
    start: 0,
    len: 100,
};

fn main(rt: HostRuntime) -> anyhow::Result<()> {
    let mut cluster = Box::new(rt.alloc(), EmbeddedCluster::new(rt.alloc(), 2)?)?;
    pass_on(&rt, &mut cluster)?;
    outlive(&rt, &mut cluster)
}

// A call of node 2 waits for a lock of node 1, and gets it.
fn pass_on(rt: &HostRuntime, cluster: &mut EmbeddedCluster) -> anyhow::Result<()> {
    begin(rt, cluster, 1)?;
    begin(rt, cluster, 2)?;
    cluster.call(rt, 1, lock(LockCommand::Set, 0))?;
    wait(rt, cluster, 2)?;
    cluster.call(rt, 1, UNLOCK)?;
    cluster.pass(rt, 16)
}

// Node 2 dies with a lock that a call of node 1 waits for, and begins again.
fn outlive(rt: &HostRuntime, cluster: &mut EmbeddedCluster) -> anyhow::Result<()> {
    wait(rt, cluster, 1)?;
    cluster.fail(rt, 2)?;
    cluster.pass(rt, 16)?;
    cluster.restart(rt, 2)?;
    begin(rt, cluster, 2)?;
    cluster.call(rt, 2, lock(LockCommand::Set, 0))?;
    cluster.pass(rt, 16)
}

// The process of the node begins, and opens the file.
fn begin(rt: &HostRuntime, cluster: &mut EmbeddedCluster, node: u8) -> anyhow::Result<()> {
    cluster.call(rt, node, Op::Process(ProcessCall::Spawn))?;
    cluster.call(rt, node, OPEN)
}

// The process of the node waits for a lock of the other node: its request is lost, and sent again.
fn wait(rt: &HostRuntime, cluster: &mut EmbeddedCluster, node: u8) -> anyhow::Result<()> {
    cluster.call(rt, node, lock(LockCommand::Wait, 50))?;
    cluster.pass(rt, 16)
}

// Asks to write a hundred bytes.
fn lock(command: LockCommand, start: i64) -> Op {
    Op::Lock(LockCall {
        command,
        fd: 0,
        kind: Kind::OfProcess,
        mode: Mode::Write,
        start,
        len: 100,
    })
}
