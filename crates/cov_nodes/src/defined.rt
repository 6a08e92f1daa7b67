ghost use Rattle.std.specs.Prelude.{◌≡◌, ◌<◌, ◌≤◌, ◌+◌, ◌*◌, length, OnOk, IfErr};
ghost use Rattle.cov_bits.specs.Layout as layout;
ghost use Rattle.cov_space.specs.Sets.{HasRoom};
ghost use Rattle.cov_space.specs.Answers.{IsCallFault};
ghost use Rattle.cov_nodes.specs.Choices.{IsChunk, PutsFamily};
ghost use Rattle.cov_nodes.specs.Standing as spec;

use crate::gathered::put_gathered;
use crate::reading::Reading;
use crate::truths::put_truth_values;
use cov_model::Model;
use cov_places::layers_are_apart;
use cov_space::{Slot, Space, SpaceFault};
use cov_syntax::{Seq, Value};
use std::alloc::Global;

/// Where the sets of a DEFINE stand: one set of the points at which it is TRUE, or from a place on one for each chunk of
/// its values.
#[derive(Drop)]
pub enum Standing {
    Truth(Slot),
    Chunks(Slot, Seq<Value>),
}

/// For each DEFINE of a model, where its sets stand, if they do.
pub type Defines = Seq<Option<Standing>>;

/// How many values one set can stand for in a Space: as many as a layer has numbers, and 1,024 at most.
pub fn chunk_size(sp: &Space) -> u16
    ensures { result ≡ spec.chunk_size sp.now.levels }
{
    let bits = sp.levels() / 3;
    if bits < 10 { 1 << bits } else { 1024 }
}

/// Puts the family of a DEFINE whose sets stand, over these values.
pub fn put_define(
    alloc: Global,
    sp: &mut Space,
    m: &Model,
    at: Reading,
    i: u32,
    standing: &Standing,
    xs: &[Value],
) -> Result<(), SpaceFault>
    requires levels { sp.old.levels ≡ 3 * layout.bits (layout.sizes m.now.vars) }
    requires standing { spec.IsStanding sp.old m.now at.present at.flip i standing.now }
    requires chunk { IsChunk sp.old.levels xs.now }
    requires room { HasRoom sp.old 16 }
    ensures ok { OnOk result (PutsFamily sp.old sp.new m.now at xs.now (spec.define_choice i)) }
    ensures err { IfErr result (λ e. IsCallFault sp.old sp.new e) }
{
    layers_are_apart();
    match standing {
        Standing::Truth(slot) => put_truth_values(sp, *slot, xs),
        Standing::Chunks(first, values) => put_gathered(alloc, sp, *first, values.as_slice(), xs),
    }
}
