ghost use Rattle.std.specs.Prelude.{◌≡◌, [], ◌∷◌, ◌++◌, map, IfOk, OnOk, OnErr, slice_get, option_map};
ghost use Rattle.std.specs.Option.{option_copied};
ghost use Rattle.cov_model.specs.Kinds.{kind_of_values};
ghost use Rattle.cov_model.specs.declared.model.Var.{Var};

use crate::kind::Kind;
use crate::values::kind_of_values;
use cov_model::Var;
use cov_syntax::{NoMemory, Seq};
use std::alloc::Global;
use std::marker::Model;

/// The kinds of variables and DEFINEs, which contracts see as `Kinds` of the model's definitions.
pub struct KindTable {
    vars: Seq<Kind>,
    defs: Seq<Kind>,
}

/// Written out, so that a table that goes out of scope gives a proof one goal.
impl Drop for KindTable {
    fn drop(self) {
        let KindTable {
            vars: _vars,
            defs: _defs,
        } = self;
    }
}

impl Model for KindTable {
    ghost use Rattle.cov_model.specs.Kinds.{Kinds};
    ghost use Rattle.cov_kinds.specs.Seen.{kinds_seen};

    ghost Value = { Kinds };

    ghost view = { λ t. kinds_seen t.vars t.defs };
}

impl KindTable {
    ghost use Rattle.cov_kinds.specs.Seen.{seen};

    /// The kinds of these variables, and of no DEFINE.
    pub fn of_variables(alloc: Global, vars: &Seq<Var>) -> Result<KindTable, NoMemory>
        ensures { IfOk result (λ t. t ≡ record { vars = map (λ (x : Var). kind_of_values x.values) vars.now; defs = [] }) }
    {
        let mut kinds = Seq::new(alloc);
        for x in vars.as_slice() {
            kinds.push(kind_of_values(alloc, &x.values)?)?;
        }
        Ok(KindTable {
            vars: kinds,
            defs: Seq::new(alloc),
        })
    }

    /// Puts the kind of the next DEFINE last.
    pub fn push(&mut self, kind: Kind) -> Result<(), NoMemory>
        ensures ok { OnOk result (self.new ≡ record { vars = self.old.vars; defs = self.old.defs ++ seen kind ∷ [] }) }
        ensures err { OnErr result (self.new ≡ self.old) }
    {
        self.defs.push(kind)
    }

    /// The kind of a variable, if it is there.
    pub fn var(&self, i: u32) -> Option<&Kind>
        ensures { option_map seen (option_copied result) ≡ slice_get self.now.vars i }
    {
        self.vars.as_slice().get(i as usize)
    }

    /// The kind of a DEFINE, if it is there.
    pub fn def(&self, i: u32) -> Option<&Kind>
        ensures { option_map seen (option_copied result) ≡ slice_get self.now.defs i }
    {
        self.defs.as_slice().get(i as usize)
    }
}
