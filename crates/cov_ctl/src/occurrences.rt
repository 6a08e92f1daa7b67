//! The occurrences of a formula: its nodes, numbered from 1 in preorder, left before right.

ghost use Rattle.std.specs.Prelude.{◌≡◌, ◌<◌, ◌↔◌, Some, None, IsSome, MatchOption};
ghost use Rattle.cov_logic.specs.Occurrence.{IsOccurrence};
ghost use Rattle.cov_logic.specs.Occurrence as logic;
ghost use Rattle.cov_logic.specs.Polarity.{positive};
ghost use Rattle.cov_ctl.specs.Formulas.{formula_of};
ghost use Rattle.cov_ctl.specs.Occurrences.{Tells};

use crate::formula::Formula;
use std::ops::ControlFlow;

/// A node of a formula, and whether it is positive.
#[derive(Clone, Copy)]
struct Node<'a> {
    formula: &'a Formula,
    positive: bool,
}

/// The formula at occurrence `n`; None where `n` is 0 or above the size.
pub fn occurrence(f: &Formula, n: u32) -> Option<&Formula>
    ensures there { MatchOption result (logic.occurrence (formula_of f.now) n ≡ None) (λ g. logic.occurrence (formula_of f.now) n ≡ Some (formula_of g.now)) }
    ensures some { IsSome result ↔ IsOccurrence (formula_of f.now) n }
{
    if n == 0 {
        return None;
    }
    match walk(f, n, true) {
        ControlFlow::Break(node) => Some(node.formula),
        ControlFlow::Continue(_) => None,
    }
}

/// Whether occurrence `n` is positive (Kupferman and Vardi 1999); None where `n` is 0 or above the size.
pub fn polarity(f: &Formula, n: u32) -> Option<bool>
    ensures { MatchOption result (IsOccurrence (formula_of f.now) n → ⊥) (λ p. IsOccurrence (formula_of f.now) n × (p ≡ positive (formula_of f.now) n)) }
{
    if n == 0 {
        return None;
    }
    match walk(f, n, true) {
        ControlFlow::Break(node) => Some(node.positive),
        ControlFlow::Continue(_) => None,
    }
}

/// The node at occurrence `n`, where the whole has the polarity `positive`; or how many numbers are left past the last
/// node.
fn walk(f: &Formula, n: u32, positive: bool) -> ControlFlow<Node<'_>, u32>
    requires { 0 < n }
    ensures { Tells (formula_of f.now) n positive result }
{
    if n == 1 {
        return ControlFlow::Break(Node {
            formula: f,
            positive,
        });
    }
    let below = n - 1;
    match f {
        Formula::Atom(_) => ControlFlow::Continue(below),
        Formula::Not(f) => walk(f.get(), below, !positive),
        Formula::Ex(f)
        | Formula::Ef(f)
        | Formula::Eg(f)
        | Formula::Ax(f)
        | Formula::Af(f)
        | Formula::Ag(f) => walk(f.get(), below, positive),
        Formula::Implies(premise, conclusion) => {
            let left = walk(premise.get(), below, !positive)?;
            walk(conclusion.get(), left, positive)
        }
        Formula::And(f, g) | Formula::Or(f, g) | Formula::Eu(f, g) | Formula::Au(f, g) => {
            let left = walk(f.get(), below, positive)?;
            walk(g.get(), left, positive)
        }
    }
}
