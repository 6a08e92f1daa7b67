ghost use Rattle.std.specs.Prelude.{◌≡◌, ℕ, List, Ok};
ghost use Rattle.cov_modules.specs.Conditions.{IsFlattenable};
ghost use Rattle.cov_syntax.specs.declared.program.Program.{Program};
ghost use Rattle.cov_syntax.specs.declared.token.Token.{Token};
ghost use Rattle.cov_syntax.specs.Programs.{ReadsText};
ghost use Rattle.cov_syntax.specs.Tokens.{tokens};

/// Whatever program the tokens of a text are, it has what flattening asks for.
pub fn flattenable()
    ensures { (text : List ℕ) (found : List Token) (p : Program) → tokens text ≡ Ok found → ReadsText text found p → IsFlattenable p }
{}
