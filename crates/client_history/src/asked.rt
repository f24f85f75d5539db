//! The calls that only ask, taken at a front: they leave the locks. A function here that gives a `Result` answers
//! `AllocError` where a request for memory was refused.
ghost use Rattle.std.specs.Prelude.{IfOk};
ghost use Rattle.client_history.specs.code.Search.{IsAsked, IsAskedOf};

use crate::{OpenClientCall, Paths, SearchFront};
use std::alloc::AllocError;

impl SearchFront {
    /// Takes the call at the front, if it only asks, is left, and the table allows it.
    pub(crate) fn ask(&mut self, open: &OpenClientCall, paths: &mut Paths) -> Result<(), AllocError>
        ensures { IfOk result (λ done. IsAsked «open».now self.old self.new) }
    {
        if !open.changes() && open.is_left(&self.taken) {
            self.take(open, paths)?;
        }
        Ok(())
    }

    /// Takes each of the calls at the front that only asks, is left, and that the table allows.
    pub(crate) fn ask_all(
        &mut self,
        open: &[OpenClientCall],
        paths: &mut Paths,
    ) -> Result<(), AllocError>
        ensures { IfOk result (λ done. IsAskedOf «open».now self.old self.new) }
    {
        for call in open {
            self.ask(call, paths)?;
        }
        Ok(())
    }
}
