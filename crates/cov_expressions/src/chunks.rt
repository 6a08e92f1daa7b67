ghost use Rattle.std.specs.Prelude.{◌≡◌, ◌<◌, ◌≤◌, ◌+◌, ◌*◌, length};
ghost use Rattle.std.specs.Int.{div_ceil};
ghost use Rattle.cov_nodes.specs.Standing.{chunk};

use cov_nodes::chunk_size;
use cov_space::{Slot, Space};
use cov_syntax::Value;

/// Sets that stand from a place on, one for each chunk of a list.
#[derive(Clone, Copy)]
pub(crate) struct Chunks<'a> {
    pub(crate) first: Slot,
    pub(crate) values: &'a [Value],
    pub(crate) size: u16,
}

impl<'a> Chunks<'a> {
    ghost use Rattle.std.specs.Prelude as nat;
    ghost use Rattle.cov_nodes.specs.Standing as spec;

    /// The chunks of a list in a Space.
    pub(crate) fn new(sp: &Space, first: Slot, values: &'a [Value]) -> Chunks<'a>
        ensures first { result.first ≡ first }
        ensures values { result.values.now ≡ values.now }
        ensures size { result.size ≡ spec.chunk_size sp.now.levels }
    {
        Chunks {
            first,
            values,
            size: chunk_size(sp),
        }
    }

    /// The number of chunks.
    pub(crate) fn count(self) -> u32
        requires size { 0 < self.size }
        requires few { length self.values.now ≤ 1024 }
        ensures { result ≡ div_ceil (length self.entry.values.now) self.entry.size }
    {
        (self.values.len() as u32).div_ceil(self.size as u32)
    }

    /// The values of a chunk.
    pub(crate) fn chunk(self, k: u32) -> &'a [Value]
        requires few { length self.values.now ≤ 1024 }
        requires size { self.size ≤ 1024 }
        requires there { k * self.size < length self.values.now }
        ensures { result.now ≡ chunk self.entry.size self.entry.values.now k }
    {
        let size = self.size as usize;
        let start = k as usize * size;
        &self.values[start..self.values.len().min(start + size)]
    }
}
