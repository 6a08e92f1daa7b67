ghost use Rattle.std.specs.Prelude.{◌≡◌, ◌≤◌, ℕ, Bool, Some};
ghost use Rattle.cov_syntax.specs.declared.tree.Expr.{Expr};
ghost use Rattle.cov_logic.specs.Formula as logic;
ghost use Rattle.cov_logic.specs.Occurrence.{size, occurrence};
ghost use Rattle.cov_logic.specs.Replacement.{replace};
ghost use Rattle.cov_model.specs.declared.model.Model.{Model};
ghost use Rattle.cov_ctl.specs.declared.formula.Formula.{Formula};
ghost use Rattle.cov_ctl.specs.declared.formula.Formula.TheVariants as ctl;
ghost use Rattle.cov_ctl.specs.Constants.{constant_expr};
ghost use Rattle.cov_ctl.specs.Formulas.{formula_of};
ghost use Rattle.cov_formulas.specs.Formulas.{AllAtoms, IsFormulaOf};
ghost use Rattle.cov_formulas.specs.Over.{IsFormulaOver};
ghost use Rattle.cov_model.specs.Atoms.{IsAtomOf};

/// What stands at an occurrence of a formula of a model is one.
pub fn occurrences_are_formulas()
    ensures { (m : Model) (f : Formula) (n : ℕ) (g : Formula) → IsFormulaOf m f → occurrence (formula_of f) n ≡ Some (formula_of g) → IsFormulaOf m g }
{}

/// TRUE and FALSE are formulas of every model, and over every model.
pub fn constants_are_formulas()
    ensures of { (m : Model) (truth : Bool) → IsFormulaOf m (ctl.Atom (constant_expr truth)) }
    ensures over { (m : Model) (truth : Bool) → IsFormulaOver m (logic.Atom (constant_expr truth)) }
{}

/// A formula of a model with another in the place of an occurrence is one, and with one node in its place it has no more nodes than before.
pub fn replaced_are_formulas()
    ensures of { (m : Model) (f : Formula) (n : ℕ) (x : logic.Formula Expr) → IsFormulaOf m f → AllAtoms (IsAtomOf m) x → AllAtoms (IsAtomOf m) (replace (formula_of f) n x) }
    ensures size { (f : logic.Formula Expr) (n : ℕ) (x : logic.Formula Expr) → size x ≡ 1 → size (replace f n x) ≤ size f }
{}
