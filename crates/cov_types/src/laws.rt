ghost use Rattle.std.specs.Prelude.{◌≡◌};
ghost use Rattle.cov_ctl.specs.Lowered.{lowered};
ghost use Rattle.cov_ctl.specs.Sizes.{size};
ghost use Rattle.cov_model.specs.Written.{formula_size};
ghost use Rattle.cov_syntax.specs.declared.tree.Expr.{Expr};

/// The size that the kinds count on a specification is that of the formula that it is lowered to.
pub fn formula_sizes()
    ensures { (e : Expr) → formula_size e ≡ size (lowered e) }
{}
