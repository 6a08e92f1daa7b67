ghost use Rattle.std.specs.Prelude.{◌≡◌, ◌↔◌, ◌<◌, ◌^◌, Some};
ghost use Rattle.cov_model.specs.Flat.{IsFlat};
ghost use Rattle.cov_model.specs.WellFormed.{IsWellFormed};
ghost use Rattle.cov_model.specs.declared.model.Signal.{Signal};

use crate::kinds::{is_boolean_define, is_boolean_variable};
use crate::named::{define_named, variable_named};
use cov_kinds::KindTable;
use cov_model::{Model, Signal};
use std::marker;

/// A model in order whose kinds are settled, with the kinds of its variables and DEFINEs and the number of its sets. Contracts see it as the model.
#[derive(Drop)]
pub struct Checked {
    pub(crate) model: Model,
    pub(crate) kinds: KindTable,
    pub(crate) roots: u32,
}

impl marker::Model for Checked {
    ghost use Rattle.cov_model.specs.declared.model.Model.{Model};
    ghost use Rattle.cov_syntax.specs.contracts.tree.Expr as expr;
    ghost use Rattle.cov_syntax.specs.contracts.tree.Node as node;
    ghost use Rattle.cov_types.specs.Counting.{IsCounted};
    ghost use Rattle.std.specs.Coded.{codes};

    ghost Value = { Model };

    ghost coded = { Prim.hlevel (codes, node.the_row.coded, expr.the_row.coded) };

    ghost view = { λ c. c.model };

    ghost invariant = { λ c. IsCounted c.model c.kinds c.roots };
}

impl Checked {
    ghost use Rattle.cov_types.specs.Roots as spec;
    ghost use Rattle.cov_types.specs.Signals.{IsSignalNamed};

    /// The model.
    pub fn model(&self) -> &Model
        ensures value { result.now ≡ self.now }
        ensures formed { IsWellFormed self.now }
        ensures flat { IsFlat self.now }
    {
        &self.model
    }

    /// The number of sets that the engine may hold at one time for the model.
    pub fn roots(&self) -> u32
        ensures value { result ≡ spec.roots self.now }
        ensures bound { spec.roots self.now < 2 ^ 32 }
    {
        self.roots
    }

    /// The Boolean variable or Boolean DEFINE of a flat name, if there is one.
    pub fn signal(&self, name: &[u8]) -> Option<Signal>
        ensures { (q : Signal) → (result ≡ Some q) ↔ IsSignalNamed self.now name.now q }
    {
        let names = self.model.names.len();
        let number = self.model.names.find(name)?;
        match variable_named(self.model.vars.as_slice(), names, number) {
            Some(i) => is_boolean_variable(&self.kinds, i).then_some(Signal::Var(i)),
            None => {
                let i = define_named(self.model.defines.as_slice(), names, number)?;
                is_boolean_define(&self.kinds, i).then_some(Signal::Def(i))
            }
        }
    }
}
