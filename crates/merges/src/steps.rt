//! Which actor an event is of, which incarnation is alive, and steps of a run.
ghost use Rattle.std.specs.Prelude.{◌≡◌, ◌<◌, true, false, Ok, length, IfOk, MatchBool};
ghost use Rattle.messages.specs.declared.event.Event.TheVariants.{Member};
ghost use Rattle.messages.specs.declared.entry.Entry.{Entry};
ghost use Rattle.cluster_core.specs.rule.World.{WorldState, journal_limit};
ghost use Rattle.cluster_core.specs.rule.Next.{next};
ghost use Rattle.cluster_core.specs.rule.Parts.{world_state};
ghost use Rattle.cluster_core.specs.rule.Journals.{GoesOn};
ghost use Rattle.merges.specs.rule.Merges.{same_actor, takes, ends};
ghost use Rattle.merges.specs.code.Merging.{current, is_there};

use cluster_core::{Run, World};
use messages::{Actor, Event, MemberEvent, Refused};
use std::alloc::{AllocError, Global};

/// Whether both are the same actor.
pub(crate) fn same_actor(one: Actor, other: Actor) -> bool
    ensures { result ≡ same_actor one other }
{
    match one {
        Actor::Node(node) => matches!(other, Actor::Node(number) if node == number),
        Actor::Server(file) => matches!(other, Actor::Server(number) if file == number),
    }
}

/// Whether the event is a step of the actor.
pub(crate) fn takes(actor: Actor, event: &Event) -> bool
    ensures { result ≡ takes actor event.now }
{
    match event {
        Event::AtNode(node, _) => same_actor(actor, Actor::Node(*node)),
        Event::AtServer(file, _) => same_actor(actor, Actor::Server(*file)),
        Event::Deliver(message) => same_actor(actor, message.get().addressee()),
        Event::Member(_) => false,
    }
}

/// Whether the event declares the actor failed.
pub(crate) fn ends(actor: Actor, event: MemberEvent) -> bool
    ensures { result ≡ ends actor (Member event) }
{
    match event {
        MemberEvent::Declare { node } => same_actor(actor, Actor::Node(node)),
        MemberEvent::FailServer { file } => same_actor(actor, Actor::Server(file)),
        _ => false,
    }
}

/// Whether the actor is alive, or works, in that incarnation.
pub(crate) fn is_current(world: &World, actor: Actor, incarnation: u16) -> bool
    ensures { MatchBool result (current (world_state world.now) actor ≡ incarnation) (is_there (world_state world.now) actor ≡ true → current (world_state world.now) actor ≡ incarnation → ⊥) }
{
    match actor {
        Actor::Node(node) => is_live(world, node, incarnation),
        Actor::Server(file) => works_in(world, file, incarnation),
    }
}

// Whether the node is alive in that incarnation.
fn is_live(world: &World, node: u8, incarnation: u16) -> bool
    ensures { MatchBool result (((world_state world.now).nodes node).incarnation ≡ incarnation) (is_there (world_state world.now) (Actor.Node node) ≡ true → ((world_state world.now).nodes node).incarnation ≡ incarnation → ⊥) }
{
    match world.live_node(node) {
        Some(live) => live.incarnation() == incarnation,
        None => false,
    }
}

// Whether the token server of the file works in that epoch.
fn works_in(world: &World, file: u16, epoch: u16) -> bool
    ensures { MatchBool result (current (world_state world.now) (Actor.Server file) ≡ epoch) (is_there (world_state world.now) (Actor.Server file) ≡ true → current (world_state world.now) (Actor.Server file) ≡ epoch → ⊥) }
{
    if !world.is_working(file) {
        return false;
    }
    match world.server_of(file) {
        Some(server) => server.epoch() == epoch,
        None => false,
    }
}

/// Whether the run took the event; else it is as it was.
pub(crate) fn took(run: &mut Run, alloc: Global, event: Event) -> Result<bool, AllocError>
    requires { length run.old.entries < journal_limit }
    ensures took { IfOk result (λ took. took ≡ true → GoesOn run.old event run.new) }
    ensures unchanged { IfOk result (λ took. took ≡ false → run.new ≡ run.old) }
    ensures refused { IfOk result (λ took. took ≡ false → (made : WorldState × Entry) → next (world_state run.old.world) event ≡ Ok made → ⊥) }
{
    let _ = run.len(); // tells the proof that the world counts the entries
    match run.take(alloc, event) {
        Ok(()) => Ok(true),
        Err(Refused::NoMemory) => Err(AllocError),
        Err(_) => Ok(false),
    }
}
