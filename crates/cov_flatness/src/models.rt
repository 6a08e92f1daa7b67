ghost use Rattle.cov_model.specs.Flat.{IsFlat};
ghost use Rattle.cov_modules.specs.Conditions.{IsFlattenable};
ghost use Rattle.cov_modules.specs.FlatLists.{flat_model};
ghost use Rattle.cov_modules.specs.Flatten.{flat_fault};
ghost use Rattle.cov_syntax.specs.Texts.{IsDistinctTexts};
ghost use Rattle.cov_syntax.specs.declared.program.Program.{Program};
ghost use Rattle.std.specs.Prelude.{None, ◌≡◌};

/// A program without faults has a flat model. Two names of one text would be spelled alike, so no text may stand twice among its names.
pub fn flat_is_flat()
    ensures { (p : Program) → IsFlattenable p → IsDistinctTexts p.names → flat_fault p ≡ None → IsFlat (flat_model p) }
{}
