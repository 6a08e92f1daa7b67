ghost use Rattle.cov_model.specs.Atoms.{StandsIn, StandsInModel};
ghost use Rattle.cov_model.specs.declared.model.Assign.{Assign};
ghost use Rattle.cov_model.specs.declared.model.Define.{Define};
ghost use Rattle.cov_model.specs.declared.model.Model.{Model};
ghost use Rattle.cov_ranges.specs.Ranges.{IsExpressionOf};
ghost use Rattle.cov_syntax.specs.declared.tree.Expr.{Expr};
ghost use Rattle.std.specs.Prelude.{Some, slice_get, ◌≡◌, ℕ};

/// A part of an expression of a model is one.
pub fn parts_stand()
    ensures { (m : Model) (x e : Expr) → IsExpressionOf m e → StandsIn x e → IsExpressionOf m x }
{}

/// Each expression in the lists of a model stands in it.
pub fn lists_stand()
    ensures defines { (m : Model) (i : ℕ) (d : Define) → slice_get m.defines i ≡ Some d → StandsInModel m d.body }
    ensures inits { (m : Model) (i : ℕ) (e : Expr) → slice_get m.inits i ≡ Some e → StandsInModel m e }
    ensures invars { (m : Model) (i : ℕ) (e : Expr) → slice_get m.invars i ≡ Some e → StandsInModel m e }
    ensures nows { (m : Model) (i : ℕ) (a : Assign) → slice_get m.nows i ≡ Some a → StandsInModel m a.body }
    ensures firsts { (m : Model) (i : ℕ) (a : Assign) → slice_get m.firsts i ≡ Some a → StandsInModel m a.body }
    ensures nexts { (m : Model) (i : ℕ) (a : Assign) → slice_get m.nexts i ≡ Some a → StandsInModel m a.body }
    ensures trans { (m : Model) (i : ℕ) (e : Expr) → slice_get m.trans i ≡ Some e → StandsInModel m e }
    ensures fair { (m : Model) (i : ℕ) (e : Expr) → slice_get m.fair i ≡ Some e → StandsInModel m e }
    ensures specs { (m : Model) (i : ℕ) (e : Expr) → slice_get m.specs i ≡ Some e → StandsInModel m e }
{}
