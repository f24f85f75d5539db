//! Actors by themselves: one node, or one token server, with what it was told of the members of its cluster.
#![tactic(auto)]

mod begun;
pub mod node_seat;
mod node_ticks;
pub mod order;
pub mod seat_step;
pub mod seated;
pub mod server_seat;
pub mod wait;
