ghost use Rattle.std.specs.Prelude.{◌≡◌, if◌then◌else◌, [], ◌∷◌, ◌++◌, List, IfOk};
ghost use Rattle.cov_model.specs.Walk.{Judged, May};

use crate::found::Found;
use crate::members::Members;
use cov_syntax::{NoMemory, Span};
use std::alloc::Global;

/// What the walk finds at the branches of a case: at the bodies, the first guard that is no Boolean, and the first guard or body that is none.
#[derive(Drop)]
pub(crate) struct Arms {
    pub(crate) bodies: Members,
    pub(crate) guard: Option<Span>,
    pub(crate) either: Option<Span>,
}

impl Arms {
    ghost use Rattle.cov_walk.specs.Found.{IsFound};
    ghost use Rattle.cov_walk.specs.Gathered.{HasArms};

    /// No branches.
    pub(crate) fn new(alloc: Global) -> Arms
        ensures { HasArms [] result }
    {
        Arms {
            bodies: Members::new(alloc),
            guard: None,
            either: None,
        }
    }

    /// These branches and one more.
    pub(crate) fn with(self, guard: Found, body: Found) -> Result<Arms, NoMemory>
        ensures { IfOk result (λ a. (bs : List (Judged × Judged)) (g e : Judged) (m n : May) → HasArms bs self → IsFound g m guard → IsFound e n body → HasArms (bs ++ (g, e) ∷ []) a) }
    {
        let first_guard = self.guard.or(guard.misfits.truth);
        let either = self.either.or(guard.misfits.truth).or(body.misfits.truth);
        let bodies = self.bodies.with(body)?;
        Ok(Arms {
            bodies,
            guard: first_guard,
            either,
        })
    }

    /// The first guard that is no Boolean, or the first guard or body where the bodies have to be Boolean too.
    pub(crate) fn misfit(&self, with_bodies: bool) -> Option<Span>
        ensures { result ≡ (if with_bodies then self.now.either else self.now.guard) }
    {
        if with_bodies { self.either } else { self.guard }
    }
}
