ghost use Rattle.std.specs.Prelude.{◌≡◌, ◌<◌, ℕ, IsFalse, IsTrue, Option, Some, slice_get};
ghost use Rattle.cov_syntax.specs.declared.tree.Expr.{Expr};
ghost use Rattle.cov_syntax.specs.declared.tree.Value.TheVariants as v;
ghost use Rattle.cov_model.specs.declared.model.Model.{Model};
ghost use Rattle.cov_model.specs.declared.model.Define.{Define};
ghost use Rattle.cov_model.specs.declared.model.Signal.{Signal};
ghost use Rattle.cov_model.specs.declared.model.Signal.TheVariants as signal;
ghost use Rattle.cov_model.specs.Kinds.{is_boolean};
ghost use Rattle.cov_model.specs.Meaning.{define, flipped, value};
ghost use Rattle.cov_model.specs.Order.{has, reads};
ghost use Rattle.cov_model.specs.Settled.{kinds_of};
ghost use Rattle.cov_model.specs.States.{State, is_typed, between, readings_in};
ghost use Rattle.cov_model.specs.Values.{truth};
ghost use Rattle.cov_model.specs.Walk.{own};
ghost use Rattle.cov_model.specs.WellFormed.{IsWellFormed};
ghost use Rattle.cov_ranges.specs.Ranges.{IsExpressionOf, is_set};

/// A DEFINE has the value of its body, read where it is read, and inverted where it is the signal.
pub fn defines_are_their_bodies()
    ensures { (m : Model) → IsWellFormed m → (i : ℕ) (d : Define) → slice_get m.defines i ≡ Some d → (s t : State) (flip : Option Signal)
        → define (readings_in m s flip) i ≡ flipped flip (signal.Def i) (value d.body (between m s t flip)) }
{}

/// A DEFINE reads those before it alone.
pub fn defines_read_earlier()
    ensures { (m : Model) → IsWellFormed m → (i : ℕ) (d : Define) → slice_get m.defines i ≡ Some d → (j : ℕ) → IsTrue (has (reads d.body) j) → j < i }
{}

/// An expression of the kind Boolean that is no set is TRUE or FALSE in typed states.
pub fn booleans()
    ensures { (m : Model) → IsWellFormed m → (e : Expr) → IsExpressionOf m e → IsFalse (is_set e) → IsTrue (is_boolean (own (kinds_of m) e))
        → (s t : State) (flip : Option Signal) → IsTrue (is_typed m s) → IsTrue (is_typed m t)
        → value e (between m s t flip) ≡ v.Bool (truth (value e (between m s t flip))) }
{}
