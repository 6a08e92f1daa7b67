ghost use Rattle.std.specs.Prelude.{◌≡◌, ◌≤◌, min};
ghost use Rattle.cov_ctl.specs.Lowered.{lowered};
ghost use Rattle.cov_ctl.specs.Sizes as sizes;
ghost use Rattle.cov_ctl.specs.Written as spec;

use crate::temporal::is_temporal;
use cov_syntax::{Expr, Node, Op1, Op2};

/// One more than the greatest size of a formula: counting ends there.
const LIMIT: u32 = 4097;

/// What is counted on an expression: whether a CTL operator stands in it, and the size of its formula, up to the limit.
#[derive(Clone, Copy)]
struct Tally {
    temporal: bool,
    size: u32,
}

/// The size of the formula that the expression is lowered to, and 4,097 where it is above 4,096. It is counted on the expression, in one pass.
pub fn lowered_size(e: &Expr) -> u32
    ensures { result ≡ min (sizes.size (lowered e.now)) 4097 }
{
    count(e).size
}

#[tactic(auto, using(crate::proofs::SizeLemmas::written_temporal))]
fn count(e: &Expr) -> Tally
    ensures temporal { result.temporal ≡ (spec.written e.now).0 }
    ensures size { result.size ≡ min (spec.written e.now).1 4097 }
{
    match &e.node {
        Node::One(op, a) => match op {
            Op1::Neg | Op1::Next => atom(is_temporal(e)),
            _ => prefixed(*op, count(a.get())),
        },
        Node::Two(op, a, b) => match op {
            Op2::And | Op2::Or | Op2::Implies | Op2::Iff | Op2::Xor | Op2::Au | Op2::Eu => {
                let a = count(a.get());
                let b = count(b.get());
                joined(*op, a, b)
            }
            Op2::Eq | Op2::Ne | Op2::Lt | Op2::Le | Op2::Gt | Op2::Ge => atom(is_temporal(e)),
            Op2::Add | Op2::Sub | Op2::Mul | Op2::Div | Op2::Mod => atom(is_temporal(e)),
            Op2::Union | Op2::Member => atom(is_temporal(e)),
        },
        Node::Lit(_) | Node::Path(_) | Node::Var(_) | Node::Def(_) => atom(is_temporal(e)),
        Node::Range(_, _) | Node::Set(_) | Node::Case(_) => atom(is_temporal(e)),
    }
}

fn atom(temporal: bool) -> Tally
    ensures { result ≡ record { temporal = temporal; size = 1 } }
{
    Tally { temporal, size: 1 }
}

fn prefixed(op: Op1, a: Tally) -> Tally
    requires { a.size ≤ 4097 }
    ensures temporal { result.temporal ≡ (spec.written_one op (a.temporal, a.size)).0 }
    ensures size { result.size ≡ min (spec.written_one op (a.temporal, a.size)).1 4097 }
{
    match op {
        Op1::Not => Tally {
            temporal: a.temporal,
            size: LIMIT.min(1 + a.size),
        },
        Op1::Neg | Op1::Next => atom(a.temporal),
        _ => Tally {
            temporal: true,
            size: LIMIT.min(1 + a.size),
        },
    }
}

fn joined(op: Op2, a: Tally, b: Tally) -> Tally
    requires left { a.size ≤ 4097 }
    requires right { b.size ≤ 4097 }
    ensures temporal { result.temporal ≡ (spec.written_two op (a.temporal, a.size) (b.temporal, b.size)).0 }
    ensures size { result.size ≡ min (spec.written_two op (a.temporal, a.size) (b.temporal, b.size)).1 4097 }
{
    let temporal = a.temporal || b.temporal;
    let once = a.size + b.size;
    match op {
        Op2::And | Op2::Or | Op2::Implies => Tally {
            temporal,
            size: LIMIT.min(1 + once),
        },
        Op2::Au | Op2::Eu => Tally {
            temporal: true,
            size: LIMIT.min(1 + once),
        },
        Op2::Iff | Op2::Xor => {
            if temporal {
                Tally {
                    temporal,
                    size: LIMIT.min(5 + once + once),
                }
            } else {
                atom(false)
            }
        }
        _ => atom(temporal),
    }
}
