ghost use Rattle.std.specs.Prelude.{◌≡◌, ◌≢◌, ℕ, IsFalse, IsTrue, Some, List, slice_get};
ghost use Rattle.cov_syntax.specs.declared.tree.Expr.{Expr};
ghost use Rattle.cov_syntax.specs.declared.tree.Branch.{Branch};
ghost use Rattle.cov_syntax.specs.declared.tree.Op1.{Op1};
ghost use Rattle.cov_syntax.specs.declared.tree.Op2.{Op2};
ghost use Rattle.cov_syntax.specs.declared.tree.Op2.TheVariants as op2;
ghost use Rattle.cov_syntax.specs.declared.tree.Node.{out-Node};
ghost use Rattle.cov_syntax.specs.declared.tree.Node.TheOpen.{Node-F};
ghost use Rattle.cov_model.specs.declared.model.Model.{Model};
ghost use Rattle.cov_model.specs.declared.model.Define.{Define};
ghost use Rattle.cov_model.specs.Atoms.{IsAtomOf};
ghost use Rattle.cov_model.specs.WellFormed.{IsWellFormed};
ghost use Rattle.cov_ranges.specs.Ranges.{IsExpressionOf, is_set};
ghost use Rattle.cov_readings.specs.Single.{HasOneChoice};

/// An expression that is no set has one choice in typed states, its value.
pub fn one_choice()
    ensures { (m : Model) → IsWellFormed m → (e : Expr) → IsExpressionOf m e → IsFalse (is_set e) → HasOneChoice m e }
{}

/// The operands and guards of an expression of a model are no sets, but those of `union` and the right one of `in`.
pub fn operands_are_single()
    ensures one { (m : Model) → IsWellFormed m → (e a : Expr) (op : Op1) → IsExpressionOf m e → out-Node e.node ≡ Node-F.One op a → IsFalse (is_set a) }
    ensures left { (m : Model) → IsWellFormed m → (e a b : Expr) (op : Op2) → IsExpressionOf m e → out-Node e.node ≡ Node-F.Two op a b → op ≢ op2.Union → IsFalse (is_set a) }
    ensures right { (m : Model) → IsWellFormed m → (e a b : Expr) (op : Op2) → IsExpressionOf m e → out-Node e.node ≡ Node-F.Two op a b → op ≢ op2.Union → op ≢ op2.Member → IsFalse (is_set b) }
    ensures guards { (m : Model) → IsWellFormed m → (e : Expr) (bs : List Branch) (i : ℕ) (b : Branch) → IsExpressionOf m e → out-Node e.node ≡ Node-F.Case bs → slice_get bs i ≡ Some b → IsFalse (is_set b.guard) }
{}

/// Conditions and the bodies of DEFINEs are no sets.
pub fn conditions_are_single()
    ensures defines { (m : Model) → IsWellFormed m → (i : ℕ) (d : Define) → slice_get m.defines i ≡ Some d → IsFalse (is_set d.body) }
    ensures inits { (m : Model) → IsWellFormed m → (i : ℕ) (e : Expr) → slice_get m.inits i ≡ Some e → IsFalse (is_set e) }
    ensures invars { (m : Model) → IsWellFormed m → (i : ℕ) (e : Expr) → slice_get m.invars i ≡ Some e → IsFalse (is_set e) }
    ensures trans { (m : Model) → IsWellFormed m → (i : ℕ) (e : Expr) → slice_get m.trans i ≡ Some e → IsFalse (is_set e) }
    ensures fair { (m : Model) → IsWellFormed m → (i : ℕ) (e : Expr) → slice_get m.fair i ≡ Some e → IsFalse (is_set e) }
{}

/// An atom is no set.
pub fn atoms_are_single()
    ensures { (m : Model) → IsWellFormed m → (e : Expr) → IsAtomOf m e → IsFalse (is_set e) }
{}
