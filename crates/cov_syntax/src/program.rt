use crate::names::Names;
use crate::seq::Seq;
use crate::tree::{Expr, Span, Value};

/// A name, by its place in the names of the program, and where it is written.
#[derive(Clone, Copy, Debug, PartialEq, Eq)]
pub struct Spelled {
    pub name: u32,
    pub place: Span,
}

/// The type of a declaration: a list of values, a range with both its ends, or an instance of a module.
pub enum TypeTree {
    Boolean,
    List(Seq<Value>),
    Between(i32, i32),
    Instance { module: Spelled, given: Seq<Expr> },
}

/// Written out, so that a type that goes out of scope gives a proof one goal and not four.
impl Drop for TypeTree {
    fn drop(self) {
        match self {
            TypeTree::Boolean => {}
            TypeTree::List(_values) => {}
            TypeTree::Between(_, _) => {}
            TypeTree::Instance {
                module: _,
                given: _given,
            } => {}
        }
    }
}

/// Which value of a variable an assignment is about: in each state, in the first one, or in the next one.
#[derive(Clone, Copy, Debug, PartialEq, Eq)]
pub enum When {
    Now,
    First,
    Next,
}

/// Which section a condition stands in.
#[derive(Clone, Copy, Debug, PartialEq, Eq)]
pub enum CondKind {
    Init,
    Invar,
    Trans,
    Fair,
    Spec,
}

/// An entry of a module. The place of a declaration is that of its type.
pub enum Section {
    Decl {
        name: Spelled,
        kind: TypeTree,
        place: Span,
    },
    Define {
        name: Spelled,
        body: Expr,
    },
    Assign {
        when: When,
        target: Expr,
        body: Expr,
    },
    Cond {
        kind: CondKind,
        body: Expr,
    },
}

/// Written out, so that an entry that goes out of scope gives a proof one goal and not four.
impl Drop for Section {
    fn drop(self) {
        match self {
            Section::Decl {
                name: _,
                kind: _kind,
                place: _,
            } => {}
            Section::Define {
                name: _,
                body: _body,
            } => {}
            Section::Assign {
                when: _,
                target: _target,
                body: _body,
            } => {}
            Section::Cond {
                kind: _,
                body: _body,
            } => {}
        }
    }
}

/// A module with its formal parameters, its entries in the order of the text.
#[derive(Drop)]
pub struct ModuleTree {
    pub name: Spelled,
    pub formals: Seq<Spelled>,
    pub sections: Seq<Section>,
}

/// The modules of a text, with its names in the order in which they first stand.
#[derive(Drop)]
pub struct Program {
    pub names: Names,
    pub modules: Seq<ModuleTree>,
}
