//! A law of the formula that an expression is lowered to.

ghost use Rattle.cov_laws.specs.Lowering.{LoweredIsRight};

/// What an expression is lowered to is true exactly where the expression is.
pub fn lowered_is_right()
    ensures { LoweredIsRight }
{}
