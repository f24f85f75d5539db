//! The first seats of the actors of a book.
ghost use Rattle.std.specs.Prelude.{◌≡◌, ◌+◌, ◌-◌, ◌<◌, Ok, length, IfOk, OnOk};
ghost use Rattle.cluster_core.specs.rule.World.{first_world};
ghost use Rattle.book.specs.rule.States.{actor_of, HasState, state_of};
ghost use Rattle.book.specs.rule.Commits.{AreFirst};
ghost use Rattle.model.specs.rule.Limits.{IsNumber};
ghost use Rattle.messages.specs.declared.actor.Actor.TheVariants.{Node as ANode, Server as AServer};

use crate::{Name, Seat, State};
use messages::Shape;
use node_core::Node;
use std::alloc::{AllocError, Global};
use token_server::Server;

// The state of a node of a cluster that begins.
fn first_node_state(alloc: Global, shape: Shape, number: u8) -> Result<State, AllocError>
    requires { IsNumber shape.nodes number }
    ensures { IfOk result (λ state. HasState (first_world shape) (state_of state) × (actor_of (state_of state) ≡ ANode number)) }
{
    let node = Node::new(alloc, shape, number, 1)?;
    let node = Box::new(alloc, node)?;
    Ok(State::OfNode { number, node })
}

// The state of a token server of a cluster that begins.
fn first_server_state(alloc: Global, shape: Shape, file: u16) -> Result<State, AllocError>
    requires { IsNumber shape.files file }
    ensures { IfOk result (λ state. HasState (first_world shape) (state_of state) × (actor_of (state_of state) ≡ AServer file)) }
{
    let server = Server::new(alloc, shape, file)?;
    let server = Box::new(alloc, server)?;
    Ok(State::OfServer { file, server })
}

// The first seats of the nodes.
pub(super) fn node_seats<J: Name>(alloc: Global, shape: Shape) -> Result<Vec<Seat<J>>, AllocError>
    ensures seats { IfOk result (λ seats. AreFirst shape seats.items) }
    ensures count { IfOk result (λ seats. length seats.items ≡ shape.nodes) }
{
    let mut seats = Vec::new(alloc);
    for index in 0..shape.nodes() {
        let state = first_node_state(alloc, shape, index + 1)?;
        seats.push(Seat::new(state))?;
    }
    Ok(seats)
}

// Appends the first seats of the token servers to those of the nodes.
pub(super) fn push_servers<J: Name>(
    alloc: Global,
    shape: Shape,
    seats: &mut Vec<Seat<J>>,
) -> Result<(), AllocError>
    requires first { AreFirst shape seats.old.items }
    requires nodes { length seats.old.items ≡ shape.nodes }
    ensures seats { OnOk result (AreFirst shape seats.new.items) }
    ensures count { OnOk result (length seats.new.items ≡ shape.nodes + shape.files) }
{
    for index in 0..shape.files() {
        let state = first_server_state(alloc, shape, index + 1)?;
        seats.push(Seat::new(state))?;
    }
    Ok(())
}
