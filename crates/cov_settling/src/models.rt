ghost use Rattle.cov_model.specs.Flat.{IsFlat};
ghost use Rattle.cov_model.specs.Order.{circular, reads_of};
ghost use Rattle.cov_model.specs.Settled.{kinds_of, settled_model, walk_fault};
ghost use Rattle.cov_model.specs.Written.{formula_fault};
ghost use Rattle.cov_model.specs.declared.model.Model.{Model};
ghost use Rattle.cov_settling.specs.Cited.{IsCited};
ghost use Rattle.std.specs.Prelude.{None, map, ◌≡◌};

/// The walk finds nothing in a settled model where it found nothing before.
pub fn passes_again()
    ensures { (m : Model) → IsCited m → walk_fault m ≡ None → walk_fault (settled_model m) ≡ None }
{}

/// A settled model is settled to itself.
pub fn settled_again()
    ensures { (m : Model) → walk_fault m ≡ None → settled_model (settled_model m) ≡ settled_model m }
{}

/// A settled model has the kinds that the model had.
pub fn same_kinds()
    ensures { (m : Model) → walk_fault m ≡ None → kinds_of (settled_model m) ≡ kinds_of m }
{}

/// A flat model stays flat where it is settled.
pub fn flat_again()
    ensures { (m : Model) → IsFlat m → IsFlat (settled_model m) }
{}

/// The DEFINEs of a settled model read what they read.
pub fn same_reads_of()
    ensures { (m : Model) → reads_of (settled_model m).defines ≡ reads_of m.defines }
{}

/// The first DEFINE that reads itself is the same.
pub fn same_circular()
    ensures { (m : Model) → circular (settled_model m).defines ≡ circular m.defines }
{}

/// The formulas of a settled model are as large, and stand where they stood.
pub fn same_formulas()
    ensures { (m : Model) → map formula_fault (settled_model m).specs ≡ map formula_fault m.specs }
{}
