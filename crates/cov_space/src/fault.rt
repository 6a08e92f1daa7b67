/// The sets that stand, together with the result of an operation, need more nodes than the budget.
#[derive(Clone, Copy, PartialEq, Eq, Debug)]
pub struct NodesFull {
    /// How many nodes stood when the operation was refused.
    pub held: u32,
    pub budget: u32,
    /// How many sets were kept when the operation was refused.
    pub roots: u32,
}

/// Why a call on a Space put no set.
#[derive(Clone, Copy, PartialEq, Eq, Debug)]
pub enum SpaceFault {
    Nodes(NodesFull),
    Memory,
}
