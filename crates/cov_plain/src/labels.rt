//! The atoms of the states, and those of mutants.

ghost use Rattle.std.specs.Prelude.{◌≡◌};

use crate::entries::row_has;

/// For each atom the states that have it, as read by the original, and as read with a signal
/// inverted. A list or an entry that is lacking counts as false.
#[derive(Drop)]
pub struct Labels {
    /// The states of each atom.
    pub plain: Vec<Vec<bool>>,
    /// The states of each atom where the signal is inverted.
    pub inverted: Vec<Vec<bool>>,
}

impl Labels {
    ghost use Rattle.cov_plain.specs.Labellings.{labelling};

    /// Whether the state has the atom in the original, or in the mutant at a state (Chockler,
    /// Kupferman and Vardi 2001).
    pub fn has(&self, mutant: Option<usize>, state: usize, atom: u32) -> bool
        ensures { result ≡ labelling self.now mutant state atom }
    {
        match mutant {
            Some(at) if at == state => row_has(&self.inverted, atom as usize, state),
            _ => row_has(&self.plain, atom as usize, state),
        }
    }
}
