ghost use Rattle.std.specs.Prelude.{◌≡◌};
ghost use Rattle.cov_show.specs.Printing as spec;

use cov_syntax::{Op1, Op2};

/// The level of everything that stands tighter than an operator between operands.
pub const TIGHTEST: u32 = 12;

/// The level of an operator between two operands.
pub fn infix_level(op: Op2) -> u32
    ensures { result ≡ spec.level_of op }
{
    match op {
        Op2::Implies => 1,
        Op2::Iff => 2,
        Op2::Or | Op2::Xor => 3,
        Op2::And => 4,
        Op2::Eq | Op2::Ne | Op2::Lt | Op2::Le | Op2::Gt | Op2::Ge => 6,
        Op2::Member => 7,
        Op2::Union => 8,
        Op2::Mod => 9,
        Op2::Add | Op2::Sub => 10,
        Op2::Mul | Op2::Div => 11,
        Op2::Au | Op2::Eu => TIGHTEST,
    }
}

/// The level that the place of the left operand asks.
pub fn left_asks(op: Op2) -> u32
    ensures { result ≡ spec.left_asks op }
{
    match op {
        Op2::Implies => 2,
        Op2::Au | Op2::Eu => 1,
        _ => infix_level(op),
    }
}

/// The level that the place of the right operand asks.
pub fn right_asks(op: Op2) -> u32
    ensures { result ≡ spec.right_asks op }
{
    match op {
        Op2::Implies | Op2::Au | Op2::Eu => 1,
        _ => infix_level(op) + 1,
    }
}

/// What stands before the left operand.
pub fn before_left(op: Op2) -> &'static [u8]
    ensures { result.now ≡ spec.before_left op }
{
    match op {
        Op2::Au => b"A[",
        Op2::Eu => b"E[",
        _ => b"",
    }
}

/// What stands between the operands.
pub fn between(op: Op2) -> &'static [u8]
    ensures { result.now ≡ spec.between op }
{
    match op {
        Op2::Implies => b" -> ",
        Op2::Iff => b" <-> ",
        Op2::Or => b" | ",
        Op2::Xor => b" xor ",
        Op2::And => b" & ",
        Op2::Eq => b" = ",
        Op2::Ne => b" != ",
        Op2::Lt => b" < ",
        Op2::Le => b" <= ",
        Op2::Gt => b" > ",
        Op2::Ge => b" >= ",
        Op2::Member => b" in ",
        Op2::Union => b" union ",
        Op2::Mod => b" mod ",
        Op2::Add => b" + ",
        Op2::Sub => b" - ",
        Op2::Mul => b" * ",
        Op2::Div => b" / ",
        Op2::Au | Op2::Eu => b" U ",
    }
}

/// What stands behind the right operand.
pub fn behind_right(op: Op2) -> &'static [u8]
    ensures { result.now ≡ spec.behind_right op }
{
    match op {
        Op2::Au | Op2::Eu => b"]",
        _ => b"",
    }
}

/// The level of an operator with one operand.
pub fn prefix_level(op: Op1) -> u32
    ensures { result ≡ spec.level_of_prefix op }
{
    match op {
        Op1::Neg | Op1::Next => TIGHTEST,
        _ => 5,
    }
}

/// What stands before the operand.
pub fn before(op: Op1) -> &'static [u8]
    ensures { result.now ≡ spec.before op }
{
    match op {
        Op1::Not => b"!",
        Op1::Neg => b"-",
        Op1::Next => b"next(",
        Op1::Ex => b"EX ",
        Op1::Ef => b"EF ",
        Op1::Eg => b"EG ",
        Op1::Ax => b"AX ",
        Op1::Af => b"AF ",
        Op1::Ag => b"AG ",
    }
}
