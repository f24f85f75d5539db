//! Scripts on threads, where a gate holds a step of a node.
use crate::clusters::holds_all;
use crate::gates::Holder;
use lockscript::Script;
use std::alloc::Global;
use std::sync::Wait;
use std::test::Fail;
use std::thread::Threads;
use std::time::Clock;
use thread_runs::{Manner, RunWatcher, run_threads};

// Nobody looks how far a run is.
#[derive(Drop)]
struct Nobody;

impl RunWatcher for Nobody {
    fn is_watched(&self) -> bool {
        false
    }

    fn tell(&mut self, _open: u64, _entries: u64) {}
}

const MANNER: Manner = Manner {
    no_join: false,
    may_stop: false,
};

const TWO_CALLS: &str = "\
cluster nodes 2 files 1 policy wide
call 1 1 spawn
call 2 1 spawn
settle
";

// Whether node 2 commits its call while that of node 1 is held. Where the gate is open, clients make both themselves.
fn commits_beside<R: Threads + Wait + Clock + Sync>(
    rt: &R,
    alloc: Global,
    is_open: bool,
) -> Result<bool, Fail> {
    let script = Script::parse(alloc, TWO_CALLS)?;
    let gate = Holder::new(rt, is_open);
    gate.arm();
    let (run, _) = run_threads(rt, alloc, &script, &gate, 7, MANNER, &mut Nobody)?;
    let receipts = run.receipts();
    Ok(gate.was_let_go() && receipts.len() == 2 && holds_all(run.journal(), receipts))
}

#[test]
fn actors_of_a_script_have_threads_of_their_own(rt: HostRuntime) -> Result<(), Fail> {
    let is_right = commits_beside(&rt, rt.alloc(), false)?;
    assert!(rt; is_right);
    Ok(())
}

#[test]
fn a_client_prepares_its_step_beside_others(rt: HostRuntime) -> Result<(), Fail> {
    let is_right = commits_beside(&rt, rt.alloc(), true)?;
    assert!(rt; is_right);
    Ok(())
}
