ghost use Rattle.std.specs.Prelude.{◌≡◌};
ghost use Rattle.cov_show.specs.Printing.{labels_with, name_labels, model_labels, name_text as text_of};

use crate::leaves::name_text;
use cov_model::{Define, Model, Var};
use cov_syntax::Names;
use std::marker;

/// The texts of what an expression cites by a number: names, variables and DEFINEs.
#[derive(Drop)]
pub struct Labels<'a> {
    names: &'a Names,
    vars: &'a [Var],
    defines: &'a [Define],
}

impl<'a> marker::Model for Labels<'a> {
    ghost use Rattle.cov_show.specs.Printing.{Labels, labels_with};

    ghost Value = { Labels };

    ghost view = { λ l. labels_with l.names.now l.vars.now l.defines.now };
}

impl<'a> Labels<'a> {
    /// Those of a tree that stands before flattening, where no variable and no DEFINE is cited.
    pub fn of_names(names: &'a Names) -> Labels<'a>
        ensures { result ≡ name_labels names.now }
    {
        Labels {
            names,
            vars: &[],
            defines: &[],
        }
    }

    pub fn of_model(m: &'a Model) -> Labels<'a>
        ensures { result ≡ model_labels m.now }
    {
        Labels {
            names: &m.names,
            vars: m.vars.as_slice(),
            defines: m.defines.as_slice(),
        }
    }

    pub fn names(&self) -> &'a Names
        ensures { result.now ≡ self.now.names }
    {
        self.names
    }

    /// The name of a variable, or nothing where there is none.
    pub fn variable(&self, i: u32) -> &'a [u8]
        ensures { result.now ≡ text_of self.now.variables i }
    {
        match self.vars.get(i as usize) {
            Some(x) => name_text(self.names, x.name),
            None => b"",
        }
    }

    /// The name of a DEFINE, or nothing where there is none.
    pub fn define(&self, i: u32) -> &'a [u8]
        ensures { result.now ≡ text_of self.now.defines i }
    {
        match self.defines.get(i as usize) {
            Some(d) => name_text(self.names, d.name),
            None => b"",
        }
    }
}
