//! Runs that are made of their events, and a world that has as many entries as it may have.
use cluster_core::World;
use cluster_core::journal::{Journal, run};
use journal_text::journal::print;
use messages::{Event, MemberEvent, NodeInput, Refused, Shape};
use model::{Op, Policy, ProcessCall};
use node_core::Node;
use std::alloc::{AllocError, Global};
use std::test::Fail;
use token_server::Server;

const TWO_CALLS: &str = "journal 1 nodes 1 files 1 policy wide
entry 1 call 1.1.1 1 spawn
reply 1.1.1 done
entry 2 call 1.1.2 2 spawn
reply 1.1.2 done
end 2
";

fn spawn(pid: u16) -> Event {
    let op = Op::Process(ProcessCall::Spawn);
    Event::AtNode(1, NodeInput::Call { pid, op })
}

// A run in which processes begin of these numbers.
fn run_of(alloc: Global, shape: Shape, first: u16, second: u16) -> Result<Journal, Refused> {
    run(alloc, shape, &[spawn(first), spawn(second)])
}

#[test]
fn a_run_ends_at_the_first_refusal(rt: HostRuntime) -> Result<(), Fail> {
    let shape = Shape::version1(1, 1, Policy::Wide)?;
    let journal = run_of(rt.alloc(), shape, 1, 2)?;
    let text = print(rt.alloc(), &shape, journal.entries())?;
    let refused = run_of(rt.alloc(), shape, 1, 257).err();
    assert!(rt; text.as_str() == TWO_CALLS && refused == Some(Refused::Stranger));
    Ok(())
}

// An interrupt of a process that waits for nothing. Nothing happens at it.
fn interrupt() -> Event {
    Event::AtNode(1, NodeInput::Interrupt { pid: 1 })
}

// Whether the world takes as many interrupts as it may have entries.
fn fills(world: &mut World, alloc: Global) -> bool {
    for _ in 0..1_048_576 {
        if world.step(alloc, interrupt()).is_err() {
            return false;
        }
    }
    true
}

// Whether the world refuses the event, since it has as many entries as it may have.
fn is_full(world: &mut World, alloc: Global, event: Event) -> bool {
    world.step(alloc, event).err() == Some(Refused::JournalFull)
}

// Whether node 1 and the token server of file 1 are alive and as they begin, and no message was sent.
fn is_as_it_began(world: &World, alloc: Global, shape: Shape) -> Result<bool, AllocError> {
    let node = Node::new(alloc, shape, 1, 1)?;
    let server = Server::new(alloc, shape, 1)?;
    Ok(world.has_node(1, &node) && world.has_server(1, &server) && world.sent().is_empty())
}

#[test]
fn a_full_world_declares_no_node(rt: HostRuntime) -> Result<(), Fail> {
    let shape = Shape::new(1, 1, Policy::Exact)?;
    let mut world = World::new(rt.alloc(), shape)?;
    assert!(rt; fills(&mut world, rt.alloc()));
    let declare = Event::Member(MemberEvent::Declare { node: 1 });
    assert!(rt; is_full(&mut world, rt.alloc(), declare));
    assert!(rt; is_full(&mut world, rt.alloc(), interrupt()));
    let is_unchanged = is_as_it_began(&world, rt.alloc(), shape)?;
    assert!(rt; is_unchanged);
    Ok(())
}
