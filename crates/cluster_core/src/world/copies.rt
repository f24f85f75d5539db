//! The world's copies of the states of its actors, exchanged for equal ones.
ghost use Rattle.std.specs.Prelude.{◌≡◌, ◌-◌, slice_index_or};
ghost use Rattle.node_core.specs.rule.Parts.{NodeParts, node_state};
ghost use Rattle.token_server.specs.rule.Parts.{ServerParts, server_state};
ghost use Rattle.cluster_core.specs.rule.Parts.{world_state};
ghost use Rattle.cluster_core.specs.rule.Actors.{HasNode, HasServer};
ghost use Rattle.cluster_core.specs.code.Changes.{with_node_copy, with_server_copy};

use super::World;
use node_core::Node;
use std::mem;
use token_server::Server;

impl World {
    /// Exchanges the world's copy of the node's state and this one, which is equal.
    pub(crate) fn exchange_node(&mut self, number: u8, node: &mut Node)
        requires { HasNode (world_state self.old) number (node_state node.old) }
        ensures given { self.new ≡ with_node_copy self.old number node.old }
        ensures there { (other : NodeParts) → slice_index_or self.new.nodes (number - 1) other ≡ node.old }
        ensures taken { (other : NodeParts) → slice_index_or self.old.nodes (number - 1) other ≡ node.new }
        ensures world { world_state self.new ≡ world_state self.old }
        ensures state { node_state node.new ≡ node_state node.old }
    {
        let copy = &mut self.nodes[number as usize - 1];
        mem::swap(copy, node);
    }

    /// Exchanges the world's copy of the token server's state and this one, which is equal.
    pub(crate) fn exchange_server(&mut self, file: u16, server: &mut Server)
        requires { HasServer (world_state self.old) file (server_state server.old) }
        ensures given { self.new ≡ with_server_copy self.old file server.old }
        ensures there { (other : ServerParts) → slice_index_or self.new.servers (file - 1) other ≡ server.old }
        ensures taken { (other : ServerParts) → slice_index_or self.old.servers (file - 1) other ≡ server.new }
        ensures world { world_state self.new ≡ world_state self.old }
        ensures state { server_state server.new ≡ server_state server.old }
    {
        let copy = &mut self.servers[file as usize - 1];
        mem::swap(copy, server);
    }
}
