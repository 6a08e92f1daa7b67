ghost use Rattle.std.specs.Prelude.{◌≡◌, ◌≤◌};
ghost use Rattle.cov_ctl.specs.declared.formula.Formula.TheVariants as node;
ghost use Rattle.cov_ctl.specs.Constants.{constant_expr};
ghost use Rattle.cov_ctl.specs.Sizes as spec;

use cov_syntax::{Expr, Node, Span, Value};
use sqlite_items::Boxed;

/// A formula of CTL over fair paths, after Clarke and Emerson (1981). An atom is an expression without CTL operators.
pub enum Formula {
    Atom(Expr),
    Not(Boxed<Formula>),
    And(Boxed<Formula>, Boxed<Formula>),
    Or(Boxed<Formula>, Boxed<Formula>),
    Implies(Boxed<Formula>, Boxed<Formula>),
    Ex(Boxed<Formula>),
    Ef(Boxed<Formula>),
    Eg(Boxed<Formula>),
    Eu(Boxed<Formula>, Boxed<Formula>),
    Ax(Boxed<Formula>),
    Af(Boxed<Formula>),
    Ag(Boxed<Formula>),
    Au(Boxed<Formula>, Boxed<Formula>),
}

/// Written out, so that a formula that goes out of scope gives a proof one goal and not thirteen.
impl Drop for Formula {
    fn drop(self) {
        match self {
            Formula::Atom(_expr) => {}
            Formula::Not(part)
            | Formula::Ex(part)
            | Formula::Ef(part)
            | Formula::Eg(part)
            | Formula::Ax(part)
            | Formula::Af(part)
            | Formula::Ag(part) => {
                let _part = part.into_inner();
            }
            Formula::And(left, right)
            | Formula::Or(left, right)
            | Formula::Implies(left, right)
            | Formula::Eu(left, right)
            | Formula::Au(left, right) => {
                let _left = left.into_inner();
                let _right = right.into_inner();
            }
        }
    }
}

/// The atom TRUE or FALSE. It has no place in a text.
pub fn constant(truth: bool) -> Formula
    ensures { result ≡ node.Atom (constant_expr truth) }
{
    Formula::Atom(Expr {
        node: Node::Lit(Value::Bool(truth)),
        place: Span { start: 0, stop: 0 },
    })
}

/// The number of nodes, atoms among them.
pub fn size(f: &Formula) -> u32
    requires { spec.size f.now ≤ 4096 }
    ensures { result ≡ spec.size f.now }
{
    match f {
        Formula::Atom(_) => 1,
        Formula::Not(f) => 1 + size(f.get()),
        Formula::And(f, g) => 1 + size(f.get()) + size(g.get()),
        Formula::Or(f, g) => 1 + size(f.get()) + size(g.get()),
        Formula::Implies(f, g) => 1 + size(f.get()) + size(g.get()),
        Formula::Ex(f) => 1 + size(f.get()),
        Formula::Ef(f) => 1 + size(f.get()),
        Formula::Eg(f) => 1 + size(f.get()),
        Formula::Eu(f, g) => 1 + size(f.get()) + size(g.get()),
        Formula::Ax(f) => 1 + size(f.get()),
        Formula::Af(f) => 1 + size(f.get()),
        Formula::Ag(f) => 1 + size(f.get()),
        Formula::Au(f, g) => 1 + size(f.get()) + size(g.get()),
    }
}
