use cov_syntax::{Expr, Names, Seq, Span, Value};

/// A state: one value place per variable, in the model's order.
pub type State = Seq<u16>;

/// A set of states: one ascending list of value places per variable.
pub type Cube = Seq<Seq<u16>>;

/// A variable or a DEFINE, by its place in the model.
#[derive(Clone, Copy, Debug, PartialEq, Eq)]
pub enum Signal {
    Var(u32),
    Def(u32),
}

/// Consecutive states, and states that are then repeated for ever.
#[derive(Drop)]
pub struct Lasso {
    pub stem: Seq<State>,
    pub turn: Seq<State>,
}

/// The first cubes of a set, and whether there are others.
#[derive(Drop)]
pub struct CubeList {
    pub cubes: Seq<Cube>,
    pub more: bool,
}

/// A variable with its values in their order, the place of its declared name and that of its type.
#[derive(Drop)]
pub struct Var {
    pub name: u32,
    pub values: Seq<Value>,
    pub place: Span,
    pub kind_place: Span,
}

/// A name for an expression, and the place of that name, or of the argument that it was made of.
#[derive(Drop)]
pub struct Define {
    pub name: u32,
    pub body: Expr,
    pub place: Span,
}

/// An assignment to a variable, and the place of its target.
#[derive(Drop)]
pub struct Assign {
    pub var: u32,
    pub body: Expr,
    pub place: Span,
}

/// A flat model, after McMillan's SMV: variables, DEFINEs, conditions, and the assignments `x :=`, `init(x) :=` and `next(x) :=`.
pub struct Model {
    pub names: Names,
    pub vars: Seq<Var>,
    pub defines: Seq<Define>,
    pub inits: Seq<Expr>,
    pub invars: Seq<Expr>,
    pub nows: Seq<Assign>,
    pub firsts: Seq<Assign>,
    pub nexts: Seq<Assign>,
    pub trans: Seq<Expr>,
    pub fair: Seq<Expr>,
    pub specs: Seq<Expr>,
}

/// Written out, so that a model that goes out of scope gives a proof one goal.
impl Drop for Model {
    fn drop(self) {
        let Model {
            names: _names,
            vars: _vars,
            defines: _defines,
            inits: _inits,
            invars: _invars,
            nows: _nows,
            firsts: _firsts,
            nexts: _nexts,
            trans: _trans,
            fair: _fair,
            specs: _specs,
        } = self;
    }
}
