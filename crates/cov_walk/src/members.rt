ghost use Rattle.std.specs.Prelude.{◌≡◌, ◌∷◌, [], ◌++◌, IsTrue, IfOk, not};
ghost use Rattle.std.specs.List.{list_all, list_any};
ghost use Rattle.cov_model.specs.Kinds.{is_boolean};
ghost use Rattle.cov_model.specs.Walk.{is_wide};
ghost use Rattle.cov_kinds.specs.Seen.{seen};

use crate::found::Found;
use crate::misfits::Misfits;
use cov_kinds::Kind;
use cov_syntax::{NoMemory, Seq};
use std::alloc::Global;

/// What the walk finds at the members of a set, or at the bodies of a case: their own kinds, and the first that does not fit.
#[derive(Drop)]
pub(crate) struct Members {
    pub(crate) kinds: Seq<Kind>,
    pub(crate) misfits: Misfits,
    ghost narrow: { IsTrue (list_all (λ k. not (is_wide (seen k))) kinds) },
}

impl Members {
    ghost use Rattle.std.specs.Prelude.{List};
    ghost use Rattle.cov_model.specs.Walk.{Judged, May};
    ghost use Rattle.cov_walk.specs.Found.{IsFound};
    ghost use Rattle.cov_walk.specs.Gathered.{HasMembers};

    /// No members.
    pub(crate) fn new(alloc: Global) -> Members
        ensures { HasMembers [] result }
    {
        Members {
            kinds: Seq::new(alloc),
            misfits: Misfits::none(),
        }
    }

    /// These members and one more.
    pub(crate) fn with(self, member: Found) -> Result<Members, NoMemory>
        ensures { IfOk result (λ m. (js : List Judged) (j : Judged) (may : May) → HasMembers js self → IsFound j may member → HasMembers (js ++ j ∷ []) m) }
    {
        let misfits = self.misfits.or(member.misfits);
        let mut kinds = self.kinds;
        kinds.push(member.own)?;
        Ok(Members { kinds, misfits })
    }

    /// Whether some member is Boolean.
    pub(crate) fn some_boolean(&self) -> bool
        ensures { result ≡ list_any (λ k. is_boolean (seen k)) self.now.kinds }
    {
        self.kinds.as_slice().iter().any(|k| k.is_boolean())
    }
}
