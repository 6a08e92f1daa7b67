ghost use Rattle.cov_model.specs.Flat.{depth};
ghost use Rattle.cov_model.specs.Kinds.{Kinds};
ghost use Rattle.cov_model.specs.Order.{reads};
ghost use Rattle.cov_model.specs.Settled.{settled};
ghost use Rattle.cov_model.specs.WellFormed.{cites};
ghost use Rattle.cov_model.specs.Written.{written};
ghost use Rattle.cov_model.specs.declared.model.Model.{Model};
ghost use Rattle.cov_syntax.specs.declared.tree.Expr.{Expr};
ghost use Rattle.std.specs.Prelude.{Bool, ◌≡◌};

/// Settling an expression keeps which DEFINEs it names.
pub fn same_reads()
    ensures { (ks : Kinds) (b : Bool) (e : Expr) → reads (settled ks b e) ≡ reads e }
{}

/// It keeps whether all that it cites is there.
pub fn same_cites()
    ensures { (m : Model) (ks : Kinds) (b : Bool) (e : Expr) → cites m (settled ks b e) ≡ cites m e }
{}

/// It keeps the size of its formula, and whether a CTL operator stands in it.
pub fn same_size()
    ensures { (ks : Kinds) (b : Bool) (e : Expr) → written (settled ks b e) ≡ written e }
{}

/// It keeps its depth.
pub fn same_depth()
    ensures { (ks : Kinds) (b : Bool) (e : Expr) → depth (settled ks b e) ≡ depth e }
{}

/// It keeps its place.
pub fn same_place()
    ensures { (ks : Kinds) (b : Bool) (e : Expr) → (settled ks b e).place ≡ e.place }
{}
