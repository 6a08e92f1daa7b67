ghost use Rattle.std.specs.Prelude.{◌≡◌, ◌<◌, ◌≤◌};
ghost use Rattle.cov_bits.specs.Layout as spec;

/// What a code has of one variable: the number of its values, its first bit, and the number of its bits.
#[derive(Clone, Copy)]
pub(crate) struct Part {
    pub size: u16,
    pub first: u32,
    pub width: u32,
}

/// The number of binary digits of the last of so many places.
pub(crate) fn width_of(size: u16) -> u32
    requires { 0 < size }
    ensures { result ≡ spec.width size }
{
    u16::BITS - (size - 1).leading_zeros()
}
