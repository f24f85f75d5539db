//! Maps that are made by a list of writes.
//!
//! Each function here that can fail errs with `AllocError`, where a request for memory was refused.
ghost use Rattle.std.specs.Prelude.{◌≡◌, IfOk, OnOk};
ghost use Rattle.intervals.specs.rule.Bytes.{put};
ghost use Rattle.intervals.specs.code.Replays.{replayed};

use crate::span::Span;
use crate::span_map::{Exact, SpanMap};
use std::alloc::{AllocError, Global};

/// A write of a map: the value that each byte of the span gets, or none.
#[derive(Clone, Copy)]
pub struct SpanWrite<V> {
    pub span: Span,
    pub value: Option<V>,
}

// Makes one write of the map.
fn perform<V: Exact, S: SpanMap<V>>(map: &mut S, command: &SpanWrite<V>) -> Result<(), AllocError>
    ensures { OnOk result (S.at map.new ≡ put (S.at map.old) command.now.span command.now.value) }
{
    match command.value {
        Some(value) => map.set(command.span, value),
        None => map.clear(command.span),
    }
}

/// The map that the commands make in turn of one in which no byte has a value.
pub fn replay<V: Exact, S: SpanMap<V>>(
    alloc: Global,
    commands: &[SpanWrite<V>],
) -> Result<S, AllocError>
    ensures { IfOk result (λ map. S.at map ≡ replayed commands.now) }
{
    let mut map = S::new(alloc);
    for command in commands {
        perform(&mut map, command)?;
    }
    Ok(map)
}
