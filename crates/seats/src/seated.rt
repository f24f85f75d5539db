//! Who has a seat.
ghost use Rattle.std.specs.Prelude.{◌≢◌, List, Ok, Err, Result, IfOk, IfErr};
ghost use Rattle.messages.specs.declared.refusal.Refused.{Refused};
ghost use Rattle.messages.specs.declared.refusal.Refused.TheVariants.{NoMemory};
ghost use Rattle.seats.specs.declared.order.Order.{Order};
ghost use Rattle.seats.specs.declared.seat_step.SeatStep.{SeatStep};
ghost use Rattle.seats.specs.rule.NodeSeats.{node_seat_rule};
ghost use Rattle.seats.specs.rule.Parts.{node_seat, server_seat};
ghost use Rattle.seats.specs.rule.ServerSeats.{server_seat_rule};
ghost use Rattle.seats.specs.rule.Steps.{Does};

use crate::node_seat::NodeSeat;
use crate::order::Order;
use crate::seat_step::SeatStep;
use crate::server_seat::ServerSeat;
use messages::{Items, Refused};
use std::alloc::Global;

/// Who has a seat: a node, or a token server.
pub trait Seated {
    // It does this as it is told, and is then that.
    ghost does: { Self → Order → Result (List SeatStep) Refused → Self → Type 0 };

    /// Does what it is told. Gives the steps, or why it is refused.
    ///
    /// # Errors
    /// Those of its rule; and `NoMemory` where a request for memory was refused, of which nothing is said.
    fn take(&mut self, alloc: Global, order: Order) -> Result<Items<SeatStep>, Refused>
        ensures ok { IfOk result (λ steps. does self.old order (Ok steps) self.new) }
        ensures err { IfErr result (λ e. e ≢ NoMemory → does self.old order (Err e) self.new) };
}

impl Seated for NodeSeat {
    ghost does = { λ a order done b. Does node_seat_rule (node_seat a) order done (node_seat b) };

    fn take(&mut self, alloc: Global, order: Order) -> Result<Items<SeatStep>, Refused> {
        self.obey(alloc, order)
    }
}

impl Seated for ServerSeat {
    ghost does = { λ a order done b. Does server_seat_rule (server_seat a) order done (server_seat b) };

    fn take(&mut self, alloc: Global, order: Order) -> Result<Items<SeatStep>, Refused> {
        self.obey(alloc, order)
    }
}
