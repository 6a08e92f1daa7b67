//! A law of division.

ghost use Rattle.cov_laws.specs.Remainders.{RemainderIsLeft};

/// What a division leaves is smaller than the divisor and has the sign of the dividend.
pub fn remainder_is_left()
    ensures { RemainderIsLeft }
{}
