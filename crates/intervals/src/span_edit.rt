//! A planned write of a span map, with the memory that it takes.
ghost use Rattle.std.specs.Prelude.{◌≡◌, ◌+◌, ◌<◌, []};
ghost use Rattle.std.specs.Vec.{vec_capacity};

use crate::byte_run::ByteRun;
use crate::row::Spare;
use crate::span::Span;

/// A planned write of a map: the value, or none, that each byte of the span gets. It holds memory
/// for a map of up to `runs` runs, and doesn't change a map of more. If a part of the map that it
/// was planned for may have to be cut in two it also holds memory for one more part.
#[derive(Drop)]
pub struct SpanEdit<V> {
    pub span: Span,
    pub value: Option<V>,
    pub runs: usize,
    pub(crate) room: Vec<ByteRun<V>>,
    pub(crate) spare: Option<Box<Spare<V>>>,
    ghost empty: { room.items ≡ [] },
    ghost enough: { runs + runs < vec_capacity room },
}
