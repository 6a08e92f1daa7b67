ghost use Rattle.std.specs.Prelude.{◌≡◌, ◌≢◌, ◌==◌, ◌↔◌, not, List, None, IsTrue, codes};
ghost use Rattle.std.specs.List.{list_all};
ghost use Rattle.cov_syntax.specs.declared.tree.Expr.{Expr};
ghost use Rattle.cov_syntax.specs.Texts.{IsDistinctTexts};
ghost use Rattle.cov_syntax.specs.Tokens.{Text};
ghost use Rattle.cov_model.specs.declared.model.Model.{Model};
ghost use Rattle.cov_model.specs.States.{State, is_typed};
ghost use Rattle.cov_model.specs.WellFormed.{IsWellFormed};
ghost use Rattle.cov_show.specs.Cubes.{shown_vars};
ghost use Rattle.cov_show.specs.Printing.{tree_text};
ghost use Rattle.cov_show.specs.ReadAgain.{IsTree, all_named, IsReadAs};
ghost use Rattle.cov_show.specs.States.{state_text, state_fault, IsStateText};

/// The text of a tree is read again as that tree. Names that are held are distinct.
pub fn read_again()
    ensures { (names : List Text) (e : Expr) → IsDistinctTexts names → IsTree e → IsTrue (all_named names e) → IsReadAs names (tree_text names e) e }
{}

/// The texts without a fault are those of the typed states. Each is a line of its own, and neither `turn` nor `end`, which end the states of a
/// lasso in a text.
pub fn state_lines()
    ensures faultless { (m : Model) (z : Text) → IsWellFormed m → (state_fault (shown_vars m) z ≡ None) ↔ IsStateText m z }
    ensures line { (m : Model) (s : State) → IsWellFormed m → IsTrue (is_typed m s) → IsTrue (list_all (λ b. not (b == 10)) (state_text (shown_vars m) s)) }
    ensures no_turn { (m : Model) (s : State) → IsTrue (is_typed m s) → state_text (shown_vars m) s ≢ codes "turn" }
    ensures no_end { (m : Model) (s : State) → IsTrue (is_typed m s) → state_text (shown_vars m) s ≢ codes "end" }
{}
