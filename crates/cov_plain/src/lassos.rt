//! Lassos given as two lists of states.

ghost use Rattle.std.specs.Prelude.{◌≡◌, false, IsTrue, ◌↔◌, slice_index_or};
ghost use Rattle.std.specs.List.{AllByRecursion, list_any};
ghost use Rattle.cov_logic.specs.Lasso.{Leads};
ghost use Rattle.cov_plain.specs.Structures.{structure_of};
ghost use Rattle.cov_plain.specs.Lassos.{AreFairLasso};

use crate::graph::Graph;

/// Whether each state of the path steps to the next one, and the last to the state after the path.
fn leads(graph: &Graph, path: &[usize], after: usize) -> bool
    ensures { IsTrue result ↔ Leads (structure_of graph.now) path.now after }
{
    for (i, from) in path.iter().enumerate() {
        let to = if i + 1 < path.len() {
            path[i + 1]
        } else {
            after
        };
        if !graph.is_step(*from, to) {
            return false;
        }
    }
    true
}

/// Whether some state of the turn is in the fairness set.
fn visits(graph: &Graph, turn: &[usize], set: usize) -> bool
    ensures { result
        ≡ list_any (slice_index_or (structure_of graph.now).fair set (λ _. false)) turn.now }
{
    turn.iter().any(|state| graph.is_fair(set, *state))
}

/// Whether each fairness set has some state of the turn.
fn visits_all(graph: &Graph, turn: &[usize]) -> bool
    ensures { IsTrue result
        ↔ AllByRecursion (λ f. IsTrue (list_any f turn.now)) (structure_of graph.now).fair }
{
    for set in 0..graph.fair.len() {
        if !visits(graph, turn, set) {
            return false;
        }
    }
    true
}

/// Whether the stem, and then the turn again and again, is a fair lasso of the graph; an empty turn
/// is none (fairness after Emerson and Lei 1986).
pub fn is_fair_lasso(graph: &Graph, stem: &[usize], turn: &[usize]) -> bool
    ensures { IsTrue result ↔ AreFairLasso (structure_of graph.now) stem.now turn.now }
{
    match turn {
        [] => false,
        [first, ..] => {
            leads(graph, stem, *first) && leads(graph, turn, *first) && visits_all(graph, turn)
        }
    }
}
