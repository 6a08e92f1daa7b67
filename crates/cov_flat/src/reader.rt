ghost use Rattle.std.specs.Prelude.{◌≡◌, IfOk, is_none};
ghost use Rattle.cov_modules.specs.Things.{named};
ghost use Rattle.cov_modules.specs.FlatLists.{node_of, target_of};
ghost use Rattle.cov_modules.specs.NameFaults as faults;
ghost use Rattle.cov_paths.specs.Targets.{IsNamed};
ghost use Rattle.cov_flat.specs.Reading.{IsReader, flat_index, variable_number, variable_of, only_variable};
ghost use Rattle.cov_flat.specs.Parts.{here};

use cov_flatness::{defines_have_places, variables_have_places};
use cov_paths::{Scopes, Target};
use cov_syntax::{Expr, NoMemory, Node, Program, Seq, Value};
use std::alloc::Global;

/// An instance in which expressions are read, by its number in the flat walk of a program.
#[derive(Clone, Copy)]
pub(crate) struct Reader<'a> {
    pub(crate) p: &'a Program,
    pub(crate) scopes: &'a Scopes,
    pub(crate) number: u32,
}

impl Reader<'_> {
    /// What a path names in the instance.
    fn named(&self, path: &[u32]) -> Option<Target>
        requires { IsReader self.now.p.now self.now.scopes.now self.now.number }
        ensures { IsNamed self.now.p.now result (named self.now.p.now (here self.now.p.now self.now.number) path.now) }
    {
        self.scopes.named(self.p, self.number, path)
    }

    /// A path as the instance reads it. One that names no value stays.
    pub(crate) fn node(&self, alloc: Global, path: &Seq<u32>) -> Result<Node, NoMemory>
        requires { IsReader self.now.p.now self.now.scopes.now self.now.number }
        ensures { IfOk result (λ n. n ≡ node_of (flat_index self.now.p.now) path.now (named self.now.p.now (here self.now.p.now self.now.number) path.now)) }
    {
        variables_have_places();
        defines_have_places();
        match self.named(path.as_slice()) {
            Some(Target::Variable(i)) => Ok(Node::Var(i)),
            Some(Target::Define(i)) => Ok(Node::Def(i)),
            Some(Target::Symbol(i)) => Ok(Node::Lit(Value::Sym(i))),
            Some(Target::Instance(_)) => Ok(Node::Path(path.copy(alloc)?)),
            None => Ok(Node::Path(path.copy(alloc)?)),
        }
    }

    /// Whether a path names a variable, a DEFINE or a symbol.
    pub(crate) fn is_value(&self, path: &[u32]) -> bool
        requires { IsReader self.now.p.now self.now.scopes.now self.now.number }
        ensures { result ≡ faults.is_value (named self.now.p.now (here self.now.p.now self.now.number) path.now) }
    {
        match self.named(path) {
            Some(Target::Variable(_)) => true,
            Some(Target::Define(_)) => true,
            Some(Target::Symbol(_)) => true,
            Some(Target::Instance(_)) => false,
            None => false,
        }
    }

    /// Whether a path names nothing.
    pub(crate) fn names_nothing(&self, path: &[u32]) -> bool
        requires { IsReader self.now.p.now self.now.scopes.now self.now.number }
        ensures { result ≡ is_none (named self.now.p.now (here self.now.p.now self.now.number) path.now) }
    {
        self.named(path).is_none()
    }

    /// The variable that a target is, if it is the path of one.
    pub(crate) fn variable(&self, target: &Expr) -> Option<u32>
        requires { IsReader self.now.p.now self.now.scopes.now self.now.number }
        ensures number { result ≡ variable_number (flat_index self.now.p.now) (target_of self.now.p.now (here self.now.p.now self.now.number) target.now) }
        ensures thing { variable_of (flat_index self.now.p.now) result ≡ only_variable (target_of self.now.p.now (here self.now.p.now self.now.number) target.now) }
    {
        variables_have_places();
        let Node::Path(path) = &target.node else {
            return None;
        };
        match self.named(path.as_slice()) {
            Some(Target::Variable(i)) => Some(i),
            Some(Target::Define(_)) => None,
            Some(Target::Symbol(_)) => None,
            Some(Target::Instance(_)) => None,
            None => None,
        }
    }
}
