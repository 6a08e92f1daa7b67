ghost use Rattle.std.specs.Prelude.{◌≡◌, ◌≤◌, ℕ, IsTrue, Option, Some, length, slice_get};
ghost use Rattle.cov_syntax.specs.declared.tree.Expr.{Expr};
ghost use Rattle.cov_model.specs.declared.model.Model.{Model};
ghost use Rattle.cov_model.specs.declared.model.Define.{Define};
ghost use Rattle.cov_model.specs.declared.model.Signal.{Signal};
ghost use Rattle.cov_model.specs.Atoms.{expressions, is_constant};
ghost use Rattle.cov_model.specs.Flat.{depth};
ghost use Rattle.cov_model.specs.Kinds.{member};
ghost use Rattle.cov_model.specs.Meaning.{define};
ghost use Rattle.cov_model.specs.States.{State, is_typed, readings_in};
ghost use Rattle.cov_model.specs.WellFormed.{IsWellFormed};
ghost use Rattle.cov_ranges.specs.Ranges.{IsExpressionOf, range_of};
ghost use Rattle.cov_types.specs.Roots.{greatest_width, greatest_depth};

/// An expression of a model has no more values than the widest.
pub fn ranges_are_narrow()
    ensures { (m : Model) → IsWellFormed m → (e : Expr) → IsExpressionOf m e → length (range_of m e) ≤ greatest_width m }
{}

/// An expression in the lists of a model is no deeper than the deepest, and TRUE and FALSE have depth 1.
pub fn expressions_are_shallow()
    ensures listed { (m : Model) (i : ℕ) (e : Expr) → slice_get (expressions m) i ≡ Some e → depth e ≤ greatest_depth m }
    ensures constants { (e : Expr) → IsTrue (is_constant e) → depth e ≡ 1 }
{}

/// The value of a DEFINE is one of its body's kind, also where it is inverted.
pub fn defines_are_listed()
    ensures { (m : Model) → IsWellFormed m → (i : ℕ) (d : Define) → slice_get m.defines i ≡ Some d → (s : State) (flip : Option Signal) → IsTrue (is_typed m s)
        → IsTrue (member (range_of m d.body) (define (readings_in m s flip) i)) }
{}
