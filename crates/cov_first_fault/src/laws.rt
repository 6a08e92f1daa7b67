ghost use Rattle.std.specs.Prelude.{◌≡◌, ◌∷◌, ◌⊎◌, [], false, Err, List, Some, ℕ};
ghost use Rattle.cov_first_fault.specs.FirstFault.{IsFirstFault};
ghost use Rattle.cov_first_fault.specs.Stops.{deep_fault, stop_fault};
ghost use Rattle.cov_grammar.specs.Modules.{program};
ghost use Rattle.cov_grammar.specs.Steps.{Stop};
ghost use Rattle.cov_syntax.specs.Lexemes.{Lexemes};
ghost use Rattle.cov_syntax.specs.Limits as limits;
ghost use Rattle.cov_syntax.specs.Programs.{ReadsModules};
ghost use Rattle.cov_syntax.specs.declared.fault.ModelFault.{ModelFault};
ghost use Rattle.cov_syntax.specs.declared.program.ModuleTree.{ModuleTree};

/// A list of lexemes has at most one first fault.
pub fn one()
    ensures { (end : ℕ) (xs : Lexemes) (f g : ModelFault) → IsFirstFault end xs f → IsFirstFault end xs g → f ≡ g }
{}

/// A program that is nowhere too deep has none.
pub fn none()
    ensures { (end : ℕ) (xs : Lexemes) (trees : List ModuleTree) (f : ModelFault)
        → ReadsModules xs trees [] → limits.IsShallow xs → ¬ IsFirstFault end xs f }
{}

/// Any other list has one.
pub fn some()
    ensures { (end : ℕ) (xs : Lexemes) → ((trees : List ModuleTree) × ReadsModules xs trees [] × limits.IsShallow xs)
        ⊎ ((f : ModelFault) × IsFirstFault end xs f) }
{}

/// Where nothing is too deep, it is what the function that reads the lexemes stops at.
pub fn stop()
    ensures { (end : ℕ) (xs : Lexemes) (e : Stop)
        → program xs ≡ Err e → limits.IsShallow xs → IsFirstFault end xs (stop_fault end xs e) }
{}

/// Where a lexeme is too deep, it is that, or what the function stops at in the lexemes up to it.
pub fn deep()
    ensures { (end : ℕ) (xs : Lexemes) (places : ℕ)
        → limits.deep false (0 ∷ []) xs ≡ Some places → IsFirstFault end xs (deep_fault end xs places) }
{}
