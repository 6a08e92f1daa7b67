ghost use Rattle.cov_cubes.specs.Models.{ModelSetsLaw};
ghost use Rattle.cov_cubes.specs.States.{CodeLaw};

/// The row of a typed state is that of its code.
pub fn rows_are_those_of_codes()
    ensures { CodeLaw }
{}

/// The sets of the initial and of the reachable states of a model are sets of states, and hold just these.
pub fn sets_of_a_model()
    ensures { ModelSetsLaw }
{}
