ghost use Rattle.std.specs.Prelude.{◌≡◌, ◌<◌};

/// The three layers of a row, for each bit three levels in this order: the inverted state, the present state, the next state.
#[derive(Clone, Copy, PartialEq, Eq, Debug)]
pub enum Layer {
    W,
    V,
    N,
}

impl Layer {
    ghost use Rattle.cov_space.specs.Layers.{place_of};

    /// The level of bit 0.
    pub(crate) fn place(self) -> u16
        ensures is { result ≡ place_of self }
        ensures below { result < 3 }
    {
        match self {
            Layer::W => 0,
            Layer::V => 1,
            Layer::N => 2,
        }
    }
}
