ghost use Rattle.std.specs.Prelude.{◌≡◌, false, OnOk};
ghost use Rattle.cov_types.specs.ValueSets as spec;
ghost use Rattle.cov_syntax.specs.declared.tree.Value.{Value};

use cov_syntax::{NoMemory, Value};
use std::alloc::Global;
use std::collections::BTreeSet;

/// A set of values.
#[derive(Drop)]
pub(crate) struct ValueSet {
    falsehood: bool,
    truth: bool,
    numbers: BTreeSet<i32>,
    symbols: BTreeSet<u32>,
}

impl ValueSet {
    /// The empty set. It takes no memory.
    pub(crate) fn new(alloc: Global) -> ValueSet
        ensures { (y : Value) → spec.holds result y ≡ false }
    {
        ValueSet {
            falsehood: false,
            truth: false,
            numbers: BTreeSet::new(alloc),
            symbols: BTreeSet::new(alloc),
        }
    }

    pub(crate) fn has(&self, x: Value) -> bool
        ensures { result ≡ spec.holds self.now x }
    {
        match x {
            Value::Bool(false) => self.falsehood,
            Value::Bool(true) => self.truth,
            Value::Int(n) => has_number(&self.numbers, n),
            Value::Sym(s) => self.symbols.contains(&s),
        }
    }

    pub(crate) fn put(&mut self, x: Value) -> Result<(), NoMemory>
        ensures { OnOk result (spec.Adds self.old self.new x) }
    {
        match x {
            Value::Bool(false) => self.falsehood = true,
            Value::Bool(true) => self.truth = true,
            Value::Int(n) => {
                self.numbers.insert(n)?;
            }
            Value::Sym(s) => {
                self.symbols.insert(s)?;
            }
        }
        Ok(())
    }
}

fn has_number(numbers: &BTreeSet<i32>, n: i32) -> bool
    ensures { result ≡ spec.has_number numbers.now.keys n }
{
    numbers.contains(&n)
}
