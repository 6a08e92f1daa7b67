ghost use Rattle.cov_model.specs.Kinds.{Kinds};
ghost use Rattle.cov_model.specs.Laws.{kind_in};
ghost use Rattle.cov_model.specs.Settled.{settled, whole_fault};
ghost use Rattle.cov_model.specs.Walk.{Asks, May, asks_truth, judged, own, truth};
ghost use Rattle.cov_model.specs.WellFormed.{cites};
ghost use Rattle.cov_model.specs.declared.model.Model.{Model};
ghost use Rattle.cov_syntax.specs.declared.tree.Expr.{Expr};
ghost use Rattle.std.specs.Prelude.{Bool, IsTrue, None, Option, ◌≡◌};

/// An expression without fault is Boolean once it is settled in a Boolean place that it fits; elsewhere it keeps its
/// own kind.
pub fn same_own()
    ensures { (ks : Kinds) (may : May) (b : Bool) (e : Expr) → (judged ks e).fault may ≡ None → (IsTrue b → (judged ks e).misfit truth ≡ None) → own ks (settled ks b e) ≡ kind_in b (own ks e) }
{}

/// It has no fault either once it is settled. In particular a case stays closed.
pub fn no_fault()
    ensures { (ks : Kinds) (may : May) (b : Bool) (e : Expr) → (judged ks e).fault may ≡ None → (IsTrue b → (judged ks e).misfit truth ≡ None) → (judged ks (settled ks b e)).fault may ≡ None }
{}

/// It is settled once and for all.
pub fn settled_twice()
    ensures { (ks : Kinds) (may : May) (b : Bool) (e : Expr) → (judged ks e).fault may ≡ None → (IsTrue b → (judged ks e).misfit truth ≡ None) → settled ks b (settled ks b e) ≡ settled ks b e }
{}

/// It fits its place once it is settled there, whatever the place asks. No set or case in it is empty: `{0, {}}` fits a
/// place that takes no Boolean, and is settled to a set with FALSE.
pub fn fits_again()
    ensures { (m : Model) (ks : Kinds) (may : May) (asks : Option Asks) (e : Expr) → IsTrue (cites m e) → whole_fault ks may asks e ≡ None → whole_fault ks may asks (settled ks (asks_truth asks) e) ≡ None }
{}
