//! A law of the test of trees.

ghost use Rattle.cov_laws.specs.Trees.{SameTreeDecides};

/// The test of trees passes exactly where they are equal once every place is taken away.
pub fn same_tree_decides()
    ensures { SameTreeDecides }
{}
