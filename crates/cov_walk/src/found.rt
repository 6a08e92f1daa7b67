ghost use Rattle.std.specs.Prelude.{◌≡◌, IsFalse};
ghost use Rattle.cov_model.specs.Walk.{is_wide};
ghost use Rattle.cov_kinds.specs.Seen.{seen};
ghost use Rattle.cov_walk.specs.Misfits.{IsUnless};

use crate::misfits::Misfits;
use cov_kinds::Kind;

/// What the walk finds at an expression without a fault: its own kind, and what in it does not fit.
#[derive(Drop)]
pub(crate) struct Found {
    pub(crate) own: Kind,
    pub(crate) misfits: Misfits,
    ghost narrow: { IsFalse (is_wide (seen own)) },
}

impl Found {
    /// What fits where its own kind does, and else not for what stands in it.
    pub(crate) fn new(own: Kind, inside: Misfits) -> Found
        requires { IsFalse (is_wide (seen own)) }
        ensures own { result.own ≡ own }
        ensures misfits { IsUnless (seen own) inside result.misfits }
    {
        let misfits = inside.unless(&own);
        Found { own, misfits }
    }

    /// What fits everywhere.
    pub(crate) fn fitting(own: Kind) -> Found
        requires { IsFalse (is_wide (seen own)) }
        ensures own { result.own ≡ own }
        ensures misfits { result.misfits ≡ record { truth = None; number = None; no_truth = None } }
    {
        Found {
            own,
            misfits: Misfits::none(),
        }
    }
}
