ghost use Rattle.std.specs.Prelude.{◌≡◌, true};
ghost use Rattle.cov_model.specs.Settled as places;
ghost use Rattle.cov_model.specs.Walk as walk;

use cov_syntax::{Op1, Op2};

/// What may stand in a place: `next`, a CTL operator, a set.
#[derive(Clone, Copy, Debug, PartialEq, Eq)]
pub struct May {
    pub next: bool,
    pub temporal: bool,
    pub set: bool,
}

impl May {
    ghost use Rattle.cov_walk.specs.Places.{may_of};

    /// The body of a DEFINE, of INIT, of INVAR or of FAIRNESS.
    pub fn steady() -> May
        ensures { may_of result ≡ places.steady }
    {
        May {
            next: false,
            temporal: false,
            set: false,
        }
    }

    /// The right side of `x :=` or `init(x) :=`.
    pub fn chosen() -> May
        ensures { may_of result ≡ places.chosen }
    {
        May {
            next: false,
            temporal: false,
            set: true,
        }
    }

    /// The right side of `next(x) :=`.
    pub fn chosen_next() -> May
        ensures { may_of result ≡ places.chosen_next }
    {
        May {
            next: true,
            temporal: false,
            set: true,
        }
    }

    /// The body of TRANS.
    pub fn moving() -> May
        ensures { may_of result ≡ places.moving }
    {
        May {
            next: true,
            temporal: false,
            set: false,
        }
    }

    /// The body of SPEC.
    pub fn timed() -> May
        ensures { may_of result ≡ places.timed }
    {
        May {
            next: false,
            temporal: true,
            set: false,
        }
    }

    /// A place in which all three may stand.
    pub(crate) fn anything() -> May
        ensures { result ≡ record { next = true; temporal = true; set = true } }
    {
        May {
            next: true,
            temporal: true,
            set: true,
        }
    }

    /// The place of an operand of an operator of logic that stands here.
    fn logic(self) -> May
        ensures { may_of result ≡ walk.logic_may (may_of self) }
    {
        May { set: false, ..self }
    }

    /// The place of a guard, or of an operand that is compared or counted with.
    pub(crate) fn plain(self) -> May
        ensures { may_of result ≡ walk.plain_may (may_of self) }
    {
        May {
            next: self.next,
            temporal: false,
            set: false,
        }
    }

    /// The place of a branch body or a member.
    pub(crate) fn part(self) -> May
        ensures { may_of result ≡ walk.part_may (may_of self) }
    {
        May {
            next: self.next,
            temporal: false,
            set: self.set,
        }
    }

    /// The right side of `in`.
    fn choices(self) -> May
        ensures { may_of result ≡ walk.set_may (may_of self) }
    {
        May {
            next: self.next,
            temporal: false,
            set: true,
        }
    }

    /// The place of the one operand of an operator that stands here.
    pub(crate) fn operand(self, op: Op1) -> May
        ensures { may_of result ≡ walk.may_of_one op (may_of self) }
    {
        match op {
            Op1::Neg => self.plain(),
            Op1::Next => May::steady(),
            _ => self.logic(),
        }
    }

    /// The place of the left operand of an operator that stands here.
    pub(crate) fn left(self, op: Op2) -> May
        ensures { may_of result ≡ walk.may_of_left op (may_of self) }
    {
        match op {
            Op2::And | Op2::Or | Op2::Xor | Op2::Implies | Op2::Iff => self.logic(),
            Op2::Au | Op2::Eu => self.logic(),
            Op2::Union => self.part(),
            _ => self.plain(),
        }
    }

    /// The place of the right operand of an operator that stands here.
    pub(crate) fn right(self, op: Op2) -> May
        ensures { may_of result ≡ walk.may_of_right op (may_of self) }
    {
        match op {
            Op2::Member => self.choices(),
            _ => self.left(op),
        }
    }
}
