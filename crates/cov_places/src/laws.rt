ghost use Rattle.cov_places.specs.Laws.{ApartLaw, RowsLaw};

/// What changes on one layer leaves the states on the others.
pub fn layers_are_apart()
    ensures { ApartLaw }
{}

/// The bits of a layer name one state, and a typed state has one row of bits.
pub fn rows_name_states()
    ensures { RowsLaw }
{}
