ghost use Rattle.cov_modules.specs.Conditions.{IsFlattenable};
ghost use Rattle.cov_modules.specs.FlatLists.{index_of, place_in};
ghost use Rattle.cov_modules.specs.ModuleFaults.{modules_fault};
ghost use Rattle.cov_modules.specs.Names.{Dotted};
ghost use Rattle.cov_syntax.specs.declared.program.Program.{Program};
ghost use Rattle.std.specs.Prelude.{None, Some, slice_get, ◌≡◌, ℕ};

/// The flat names of the variables are pairwise different: each has the place at which it stands.
pub fn variables_have_places()
    ensures { (p : Program) → IsFlattenable p → modules_fault p ≡ None → (i : ℕ) (d : Dotted) → slice_get (index_of p).vars i ≡ Some d → place_in (index_of p).vars d ≡ i }
{}

/// So are those of the DEFINEs, whether a section declares them or an argument becomes one.
pub fn defines_have_places()
    ensures { (p : Program) → IsFlattenable p → modules_fault p ≡ None → (i : ℕ) (d : Dotted) → slice_get (index_of p).defs i ≡ Some d → place_in (index_of p).defs d ≡ i }
{}
