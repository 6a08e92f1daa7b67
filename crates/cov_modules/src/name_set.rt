ghost use Rattle.std.specs.Prelude.{◌≡◌, [], OnOk};
ghost use Rattle.cov_modules.specs.Names as spec;

use cov_syntax::NoMemory;
use std::alloc::Global;
use std::collections::BTreeSet;
use std::marker::Model;

/// A set of names, each given by its place among the names of the program.
#[derive(Drop)]
pub struct NameSet {
    names: BTreeSet<u32>,
}

impl Model for NameSet {
    ghost use Rattle.std.specs.Prelude.{List, ℕ};

    ghost Value = { List ℕ };

    ghost view = { λ s. s.names.keys };
}

impl NameSet {
    /// The empty set. It takes no memory.
    pub fn new(alloc: Global) -> NameSet
        ensures { result ≡ [] }
    {
        NameSet {
            names: BTreeSet::new(alloc),
        }
    }

    pub fn has(&self, name: u32) -> bool
        ensures { result ≡ spec.has self.now name }
    {
        self.names.contains(&name)
    }

    pub fn put(&mut self, name: u32) -> Result<(), NoMemory>
        ensures { OnOk result (spec.Adds self.old self.new name) }
    {
        self.names.insert(name)?;
        Ok(())
    }
}
