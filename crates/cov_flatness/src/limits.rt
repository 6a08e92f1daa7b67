ghost use Rattle.cov_modules.specs.Conditions.{IsFlattenable};
ghost use Rattle.cov_modules.specs.FlatLists.{flat_defines, flat_vars};
ghost use Rattle.cov_modules.specs.ModuleFaults.{modules_fault};
ghost use Rattle.cov_modules.specs.Walk.{walk};
ghost use Rattle.cov_syntax.specs.declared.program.Program.{Program};
ghost use Rattle.std.specs.Prelude.{None, length, ◌+◌, ◌≡◌, ◌≤◌};

/// There are at most 4,096 variables and DEFINEs.
pub fn few_names()
    ensures { (p : Program) → IsFlattenable p → modules_fault p ≡ None → length (flat_vars (walk p)) + length (flat_defines (walk p)) ≤ 4096 }
{}
