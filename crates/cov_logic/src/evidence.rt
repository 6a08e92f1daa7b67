//! Laws of what one lasso refutes and shows.

ghost use Rattle.cov_logic.specs.EvidenceLaws.{PlainIsTold, PlainIsLinear, LabelsDecide};
ghost use Rattle.cov_logic.specs.EvidenceLaws.{EvidenceIsSound, RefutedFails, GoesThrough};
ghost use Rattle.cov_logic.specs.EvidenceLaws.{FailureIsRefuted};

/// Of a formula without temporal operators a lasso tells its truth at the first state.
pub fn plain_is_told<S, A>()
    ensures { PlainIsTold S A }
{}

/// A formula without temporal operators is linear universal and linear existential.
pub fn plain_is_linear<A>()
    ensures { PlainIsLinear A }
{}

/// What a lasso refutes and shows depends on the atoms of its states alone.
pub fn labels_decide<S, A>()
    ensures { LabelsDecide S A }
{}

/// What a fair lasso refutes is not true at its first state, and what it shows is.
pub fn evidence_is_sound<S, A>()
    ensures { EvidenceIsSound S A }
{}

/// What a fair lasso from an initial state refutes does not pass.
pub fn refuted_fails<S, A>()
    ensures { RefutedFails S A }
{}

/// A lasso that refutes in a mutant a formula that passes goes through the mutant's state.
pub fn refuting_goes_through<S, A>()
    ensures { GoesThrough S A }
{}

/// On a finite structure a linear universal formula that does not pass is refuted by a fair lasso
/// from an initial state.
pub fn failure_is_refuted<S, A>()
    ensures { FailureIsRefuted S A }
{}
