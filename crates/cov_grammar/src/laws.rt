ghost use Rattle.std.specs.Prelude.{◌≡◌, [], IfOk, Ok, ℕ};
ghost use Rattle.cov_grammar.specs.Modules.{program};
ghost use Rattle.cov_syntax.specs.declared.program.ModuleTree.{ModuleTree};
ghost use Rattle.cov_syntax.specs.declared.program.Program.{Program};
ghost use Rattle.cov_syntax.specs.declared.token.Token.{Token};
ghost use Rattle.cov_syntax.specs.Lexemes.{Lexemes};
ghost use Rattle.cov_syntax.specs.Programs.{ReadsModules, ReadsText};
ghost use Rattle.std.specs.Prelude.{List};

/// What the function reads is in the grammar.
pub fn sound()
    ensures { (xs : Lexemes) → IfOk (program xs) (λ trees. ReadsModules xs trees []) }
{}

/// What is in the grammar is what the function reads.
pub fn complete()
    ensures { (xs : Lexemes) (trees : List ModuleTree) → ReadsModules xs trees [] → program xs ≡ Ok trees }
{}

/// The tokens of a text are those of at most one program.
pub fn unique()
    ensures { (text : List ℕ) (tokens : List Token) (a b : Program) → ReadsText text tokens a → ReadsText text tokens b → a ≡ b }
{}
