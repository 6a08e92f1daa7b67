ghost use Rattle.cov_model.specs.Settled.{kinds_of};
ghost use Rattle.cov_model.specs.Types.{has_twice};
ghost use Rattle.cov_model.specs.Walk.{May, judged};
ghost use Rattle.cov_model.specs.WellFormed.{IsWellFormed};
ghost use Rattle.cov_model.specs.declared.model.Model.{Model};
ghost use Rattle.cov_ranges.specs.Ranges.{IsExpressionOf, ListsAll, range_of};
ghost use Rattle.cov_syntax.specs.declared.tree.Expr.{Expr};
ghost use Rattle.std.specs.Prelude.{IsFalse, None, length, ◌≡◌, ◌≤◌};

/// The walk finds no fault in an expression of a well-formed model or in a part of one, where it stands in its own place.
pub fn no_fault_in()
    ensures { (m : Model) → IsWellFormed m → (e : Expr) → IsExpressionOf m e → (may : May) × ((judged (kinds_of m) e).fault may ≡ None) }
{}

/// Every value and every choice of an expression of a well-formed model is among the values of its own kind, in typed
/// states and under every flip.
pub fn all_listed()
    ensures { (m : Model) → IsWellFormed m → (e : Expr) → IsExpressionOf m e → ListsAll m e (range_of m e) }
{}

/// No value stands twice among the values of the own kind of an expression.
pub fn listed_once()
    ensures { (m : Model) → IsWellFormed m → (e : Expr) → IsFalse (has_twice (range_of m e)) }
{}

/// An expression of a well-formed model has at most 1,024 values.
pub fn few_listed()
    ensures { (m : Model) → IsWellFormed m → (e : Expr) → IsExpressionOf m e → length (range_of m e) ≤ 1024 }
{}
