use cov_model::Signal;
use cov_space::Layer;

/// Where an expression is read: the layers that hold the present and the next state, and the signal whose readings in
/// the present state are inverted.
#[derive(Clone, Copy)]
pub struct Reading {
    pub present: Layer,
    pub next: Layer,
    pub flip: Option<Signal>,
}

impl Reading {
    ghost use Rattle.std.specs.Prelude.{◌≡◌};
    ghost use Rattle.cov_nodes.specs.Points as spec;

    /// A reading of one state, which stands for both.
    pub fn at(layer: Layer, flip: Option<Signal>) -> Reading
        ensures { result ≡ spec.at_layer layer flip }
    {
        Reading {
            present: layer,
            next: layer,
            flip,
        }
    }

    /// How the operand of `next` is read.
    pub fn moved(self) -> Reading
        ensures { result ≡ spec.moved_on self }
    {
        Reading {
            present: self.next,
            next: self.next,
            flip: None,
        }
    }
}
