//! A law of the states of a model.

ghost use Rattle.cov_laws.specs.States.{ModelsAreFinite};

/// A model has finitely many states, so that what is true of finite structures is true of models.
pub fn models_are_finite<A>()
    ensures { ModelsAreFinite A }
{}
