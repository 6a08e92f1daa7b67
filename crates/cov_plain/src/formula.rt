//! Formulas, over numbered atoms.

use sqlite_items::Boxed;

/// A formula of CTL (Clarke and Emerson 1981).
#[derive(Drop)]
pub enum Formula {
    Atom(u32),
    Not(Boxed<Formula>),
    And(Boxed<Formula>, Boxed<Formula>),
    Or(Boxed<Formula>, Boxed<Formula>),
    Implies(Boxed<Formula>, Boxed<Formula>),
    Ex(Boxed<Formula>),
    Ef(Boxed<Formula>),
    Eg(Boxed<Formula>),
    Eu(Boxed<Formula>, Boxed<Formula>),
    Ax(Boxed<Formula>),
    Af(Boxed<Formula>),
    Ag(Boxed<Formula>),
    Au(Boxed<Formula>, Boxed<Formula>),
}
