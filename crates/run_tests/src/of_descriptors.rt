//! Processes and what they have open, where each change is made at once. (A node plans each.)
use descriptors::error::ProcessError;
use descriptors::processes::Processes;
use model::Access;
use std::alloc::{AllocError, Global};
use std::test::Fail;

// Whether process 256 begins once, opens a file, has its descriptor twice, and hands both on to a child.
fn opens(processes: &mut Processes) -> bool {
    processes.open(256, 2, Access::ReadOnly) == Err(ProcessError::NoProcess)
        && processes.spawn(256) == Ok(())
        && processes.spawn(256) == Err(ProcessError::Exists)
        && processes.open(256, 2, Access::ReadOnly) == Ok(0)
        && processes.dup(256, 0) == Ok(1)
        && processes.dup(256, 64) == Err(ProcessError::BadFd)
        && processes.fork(256, 1) == Ok(())
        && processes.fork(256, 1) == Err(ProcessError::Exists)
}

// Whether a copy is the same until the processes end.
fn is_copied(processes: &mut Processes) -> Result<bool, AllocError> {
    let copy = processes.copy()?;
    let was_same = copy.same(processes);
    processes.end(256);
    let is_left = processes.has_open(1, 2) && !processes.is_running(256);
    processes.end(1);
    Ok(was_same && is_left && processes.is_idle() && !copy.same(processes))
}

fn are_right(alloc: Global) -> Result<bool, AllocError> {
    let mut processes = Box::new(alloc, Processes::new(alloc))?;
    Ok(opens(&mut processes) && is_copied(&mut processes)?)
}

#[test]
fn descriptors_share_what_they_refer_to(rt: HostRuntime) -> Result<(), Fail> {
    let is_right = are_right(rt.alloc())?;
    assert!(rt; is_right);
    Ok(())
}
