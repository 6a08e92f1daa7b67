ghost use Rattle.std.specs.Prelude.{◌≡◌, ◌≤◌, ℕ, Some, slice_get};
ghost use Rattle.cov_syntax.specs.declared.tree.Expr.{Expr};
ghost use Rattle.cov_model.specs.declared.model.Model.{Model};
ghost use Rattle.cov_model.specs.WellFormed.{IsWellFormed};
ghost use Rattle.cov_ctl.specs.Lowered.{lowered};
ghost use Rattle.cov_ctl.specs.Sizes.{size};
ghost use Rattle.cov_types.specs.Roots.{greatest_size};
ghost use Rattle.cov_formulas.specs.Formulas.{IsFormulaOf};

/// A specification of a model, its `<->` and `xor` written out, is a formula of the model.
pub fn specifications_are_formulas()
    ensures { (m : Model) → IsWellFormed m → (i : ℕ) (e : Expr) → slice_get m.specs i ≡ Some e → IsFormulaOf m (lowered e) }
{}

/// The formula of a specification has at most as many nodes as the greatest, and at most 4,096.
pub fn specifications_are_small()
    ensures greatest { (m : Model) (i : ℕ) (e : Expr) → slice_get m.specs i ≡ Some e → size (lowered e) ≤ greatest_size m.specs }
    ensures limit { (m : Model) → IsWellFormed m → (i : ℕ) (e : Expr) → slice_get m.specs i ≡ Some e → size (lowered e) ≤ 4096 }
{}
