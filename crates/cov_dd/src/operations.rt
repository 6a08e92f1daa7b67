ghost use Rattle.std.specs.Prelude.{◌⊎◌, IfSome, IfNone};
ghost use Rattle.cov_dd.specs.Nodes.{IsInner};
ghost use Rattle.cov_dd.specs.Operations.{IsKnown};

use crate::node::Ref;

/// What is done with two functions.
#[derive(Clone, Copy, PartialEq, Eq, Hash, Debug)]
pub enum Op {
    And,
    Or,
    Xor,
}

/// The result where an operand is a constant, or where both are one diagram, if that settles it.
pub fn shortcut(op: Op, f: Ref, g: Ref) -> Option<Ref>
    ensures known { IfSome result (λ r. IsKnown op f g r) }
    ensures open { IfNone result (IsInner f ⊎ IsInner g) }
{
    if f == g {
        return Some(with_itself(op, f));
    }
    match (f, g) {
        (Ref::Constant(value), _) => with_constant(op, value, g),
        (_, Ref::Constant(value)) => with_constant(op, value, f),
        _ => None,
    }
}

fn with_itself(op: Op, f: Ref) -> Ref
    ensures { IsKnown op f f result }
{
    match op {
        Op::And | Op::Or => f,
        Op::Xor => Ref::Constant(false),
    }
}

fn with_constant(op: Op, value: bool, other: Ref) -> Option<Ref>
    ensures known { IfSome result (λ r. IsKnown op (Ref.Constant value) other r) }
    ensures open { IfNone result (IsInner other) }
{
    match (op, value, other) {
        (Op::And, false, _) | (Op::Or, true, _) => Some(Ref::Constant(value)),
        (Op::Xor, true, Ref::Constant(bit)) => Some(Ref::Constant(!bit)),
        (Op::Xor, true, Ref::Inner(_)) => None,
        _ => Some(other),
    }
}
