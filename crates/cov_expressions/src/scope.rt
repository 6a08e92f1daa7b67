ghost use Rattle.std.specs.Prelude.{◌≡◌};
ghost use Rattle.cov_nodes.specs.Points.{moved_on};

use cov_bits::Plan;
use cov_nodes::{Defines, Reading};
use cov_types::Checked;

/// Where an expression of a model is read, with the sets of the DEFINEs that stand for readings in the present state and
/// in the next one.
#[derive(Clone, Copy)]
pub struct Scope<'a> {
    pub m: &'a Checked,
    pub plan: &'a Plan,
    pub at: Reading,
    pub here: &'a Defines,
    pub there: &'a Defines,
}

impl<'a> Scope<'a> {
    /// Where the operand of `next` is read.
    pub(crate) fn moved(self) -> Scope<'a>
        ensures m { result.m.now ≡ self.entry.m.now }
        ensures plan { result.plan.now ≡ self.entry.plan.now }
        ensures at { result.at ≡ moved_on self.entry.at }
        ensures here { result.here.now ≡ self.entry.there.now }
        ensures there { result.there.now ≡ self.entry.there.now }
    {
        Scope {
            m: self.m,
            plan: self.plan,
            at: self.at.moved(),
            here: self.there,
            there: self.there,
        }
    }
}
