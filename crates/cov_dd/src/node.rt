/// A diagram: a constant, or the inner node with this number.
#[derive(Clone, Copy, PartialEq, Eq, Hash, Debug)]
pub enum Ref {
    Constant(bool),
    Inner(u32),
}

/// An inner node: the level whose bit it tests, and the diagrams at which it goes on.
#[derive(Clone, Copy, PartialEq, Eq, Debug)]
pub struct Part {
    pub level: u16,
    /// Where the bit is clear.
    pub low: Ref,
    /// Where the bit is set.
    pub high: Ref,
}
