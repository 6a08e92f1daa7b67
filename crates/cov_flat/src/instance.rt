ghost use Rattle.std.specs.Prelude.{◌≡◌, ◌<◌, ◌++◌, ◌∷◌, []};
ghost use Rattle.cov_flat.specs.Reading.{IsReader, IsDeclaration, stop_at};
ghost use Rattle.cov_flat.specs.Parts.{here};

use crate::reader::Reader;
use cov_syntax::{Expr, ModuleTree, Section, TypeTree};

impl<'a> Reader<'a> {
    /// The module of the instance.
    pub(crate) fn module(&self) -> &'a ModuleTree
        requires { IsReader self.now.p.now self.now.scopes.now self.now.number }
        ensures { result.now ≡ (here self.now.p.now self.now.number).from }
    {
        let entry = self.scopes.stops().entry(self.number);
        self.p.modules.get(entry.module as usize)
    }

    /// The number of the instance that declares this one, and of `main` for `main`.
    pub(crate) fn caller(&self) -> u32
        requires { IsReader self.now.p.now self.now.scopes.now self.now.number }
        ensures reader { IsReader self.now.p.now self.now.scopes.now result }
        ensures caller { here self.now.p.now result ≡ (stop_at self.now.p.now self.now.number).caller }
        ensures before { 0 < self.now.number → result < self.now.number }
    {
        self.scopes.stops().entry(self.number).caller
    }

    /// The section that declares the instance.
    fn declaration(&self) -> &'a Section
        requires reader { IsReader self.now.p.now self.now.scopes.now self.now.number }
        requires declared { 0 < self.now.number }
        ensures { IsDeclaration self.now.p.now (stop_at self.now.p.now self.now.number) result.now }
    {
        let entry = self.scopes.stops().entry(self.number);
        let caller = Reader {
            number: self.caller(),
            ..*self
        };
        caller.module().sections.get(entry.section as usize)
    }

    /// The name under which the instance is declared.
    pub(crate) fn own_name(&self) -> u32
        requires reader { IsReader self.now.p.now self.now.scopes.now self.now.number }
        requires declared { 0 < self.now.number }
        ensures { (here self.now.p.now self.now.number).name ≡ (stop_at self.now.p.now self.now.number).caller.name ++ result ∷ [] }
    {
        match self.declaration() {
            Section::Decl { name, .. } => name.name,
            Section::Define { name, .. } => name.name,
            Section::Assign { .. } => 0,
            Section::Cond { .. } => 0,
        }
    }

    /// The arguments that the instance is given; `main` is given none.
    pub(crate) fn given(&self) -> &'a [Expr]
        requires { IsReader self.now.p.now self.now.scopes.now self.now.number }
        ensures { result.now ≡ (stop_at self.now.p.now self.now.number).given }
    {
        if self.number == 0 {
            return &[];
        }
        match self.declaration() {
            Section::Decl { kind, .. } => match kind {
                TypeTree::Instance { given, .. } => given.as_slice(),
                TypeTree::Boolean => &[],
                TypeTree::List(_) => &[],
                TypeTree::Between(_, _) => &[],
            },
            Section::Define { .. } => &[],
            Section::Assign { .. } => &[],
            Section::Cond { .. } => &[],
        }
    }
}
