ghost use Rattle.std.specs.Prelude.{IfOk};
ghost use Rattle.cov_model.specs.Machine as spec;

use crate::frame::{Frame, frame_for};
use crate::model::Model;
use cov_syntax::NoMemory;
use std::alloc::Global;

/// The memory of the evaluator: what is read in a present state, and in the next one.
#[derive(Drop)]
pub struct Scratch {
    pub(crate) present: Frame,
    pub(crate) next: Frame,
}

impl Scratch {
    /// Takes all memory that the evaluator needs for the model.
    pub fn new(alloc: Global, m: &Model) -> Result<Scratch, NoMemory>
        ensures { IfOk result (λ sc. spec.IsScratchOf m.now sc) }
    {
        let present = frame_for(alloc, m)?;
        let next = frame_for(alloc, m)?;
        Ok(Scratch { present, next })
    }
}
