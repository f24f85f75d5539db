//! The calls about one file. A function here that gives a `Result` answers `AllocError` where a request for memory
//! was refused.
ghost use Rattle.std.specs.Prelude.{◌≡◌, ◌++◌, ◌∷◌, [], length, OnOk};
ghost use Rattle.history_text.specs.code.Readings.{second_step};

use client_history::ClientCall;
use std::alloc::{AllocError, Global};

/// The calls about one file that its clients saw, and for each call, at the same index, the number of its line, from
/// 1. The first `told` calls stand in the order of their lines, which are lines of calls; a wait that was done in two
/// steps is two calls of one line. Behind them stand calls that drop all that an owner has in the file: for each line
/// `lost` the owners that lost something between its times, and then the exits.
#[derive(Drop)]
pub struct FileCalls {
    pub calls: Vec<ClientCall>,
    pub lines: Vec<u64>,
    pub told: usize,
}

impl FileCalls {
    /// No calls.
    pub(crate) fn new(alloc: Global) -> FileCalls
        ensures calls { result.calls.items ≡ [] }
        ensures lines { result.lines.items ≡ [] }
    {
        FileCalls {
            calls: Vec::new(alloc),
            lines: Vec::new(alloc),
            told: 0,
        }
    }

    /// Appends the call of this line.
    pub(crate) fn push(&mut self, line: u64, call: &ClientCall) -> Result<(), AllocError>
        ensures calls { OnOk result (self.new.calls.items ≡ self.old.calls.items ++ call.now ∷ []) }
        ensures lines { OnOk result (self.new.lines.items ≡ self.old.lines.items ++ line ∷ []) }
        ensures told { self.new.told ≡ self.old.told }
    {
        let end: Option<u64> = call.end; // tells the proof the type of a call's end
        self.calls.push(ClientCall { end, ..*call })?;
        self.lines.push(line)?;
        Ok(())
    }

    /// Appends the two calls of this line, which are steps of one. If they have ended, the second follows the first.
    pub(crate) fn push_steps(
        &mut self,
        line: u64,
        first: &ClientCall,
        second: &ClientCall,
    ) -> Result<(), AllocError>
        ensures calls { OnOk result (self.new.calls.items ≡ self.old.calls.items ++ first.now ∷ [] ++ second_step (length self.old.calls.items) second.now ∷ []) }
        ensures lines { OnOk result (self.new.lines.items ≡ self.old.lines.items ++ line ∷ [] ++ line ∷ []) }
    {
        let second = second_step(self.calls.len(), second);
        self.push(line, first)?;
        self.push(line, &second)?;
        Ok(())
    }
}

// The call as the second step: if it has ended, it follows the call with that index.
fn second_step(first: usize, call: &ClientCall) -> ClientCall
    ensures { result ≡ second_step first call.now }
{
    let follows = match call.end {
        Some(_) => Some(first),
        None => None,
    };
    ClientCall { follows, ..*call }
}
