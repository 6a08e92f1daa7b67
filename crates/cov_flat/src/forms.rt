ghost use Rattle.std.specs.Prelude.{◌≡◌, ◌==◌, ℕ, OnOk, if◌then◌else◌};
ghost use Rattle.cov_flat.specs.Doubles as spec;

use cov_syntax::{NoMemory, When};
use std::alloc::Global;
use std::collections::BTreeMap;

/// The forms in which a variable is assigned.
#[derive(Clone, Copy)]
pub(crate) struct Forms {
    pub(crate) now: bool,
    pub(crate) first: bool,
    pub(crate) next: bool,
}

/// No form.
const NO_FORM: Forms = Forms {
    now: false,
    first: false,
    next: false,
};

impl Forms {
    /// Whether one of the forms excludes this one.
    pub(crate) fn exclude(self, form: When) -> bool
        ensures { result ≡ spec.excludes_form self form }
    {
        match form {
            When::Now => self.now || self.first || self.next,
            When::First => self.now || self.first,
            When::Next => self.now || self.next,
        }
    }

    /// The forms with one more.
    pub(crate) fn with(self, form: When) -> Forms
        ensures { result ≡ spec.with_form form self }
    {
        match form {
            When::Now => Forms { now: true, ..self },
            When::First => Forms {
                first: true,
                ..self
            },
            When::Next => Forms { next: true, ..self },
        }
    }
}

/// The forms in which each variable is assigned.
#[derive(Drop)]
pub(crate) struct Table {
    forms: BTreeMap<u32, Forms>,
}

impl Table {
    ghost use Rattle.cov_flat.specs.Tables.{forms_in};

    /// The table of no assignment.
    pub(crate) fn new(alloc: Global) -> Table
        ensures { (i : ℕ) → forms_in result i ≡ spec.no_form }
    {
        Table {
            forms: BTreeMap::new(alloc),
        }
    }

    /// The forms in which a variable is assigned.
    pub(crate) fn get(&self, var: u32) -> Forms
        ensures { result ≡ forms_in self.now var }
    {
        self.forms.get(&var).copied().unwrap_or(NO_FORM)
    }

    /// Puts the forms in which a variable is assigned.
    pub(crate) fn put(&mut self, var: u32, forms: Forms) -> Result<(), NoMemory>
        ensures { OnOk result ((i : ℕ) → forms_in self.new i ≡ (if var == i then forms else forms_in self.old i)) }
    {
        self.forms.insert(var, forms)?;
        Ok(())
    }
}
