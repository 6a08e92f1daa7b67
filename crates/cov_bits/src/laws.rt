ghost use Rattle.cov_bits.specs.Laws.{CodeLaw, PlaceLaw, RowLaw, TypedLaw, WidthLaw};

/// The typed states and their codes correspond one to one.
pub fn codes_and_states()
    ensures { CodeLaw }
{}

/// The codes and the rows of bits correspond one to one.
pub fn rows_and_codes()
    ensures { RowLaw }
{}

/// The bits of a variable in a row are the binary number of its place.
pub fn places_in_rows()
    ensures { PlaceLaw }
{}

/// A variable has the least number of bits that tell its values apart.
pub fn widths_are_least()
    ensures { WidthLaw }
{}

/// A state is typed for the model exactly where a plan of the model can encode it.
pub fn typed_states_have_places()
    ensures { TypedLaw }
{}
