ghost use Rattle.cov_fields.specs.Laws.{ApartLaw, StateLaw, WritingLaw};

/// A field holds what was written in it, and the others what they held.
pub fn written_is_held()
    ensures { WritingLaw }
{}

/// The fields of different variables have no bit in common, nor those of different layers.
pub fn fields_are_apart()
    ensures { ApartLaw }
{}

/// The row of a state's code holds the place of each variable.
pub fn codes_hold_places()
    ensures { StateLaw }
{}
