ghost use Rattle.cov_dd.specs.Laws.{CanonicityLaw, SizeLaw};

/// Two diagrams of one function are one (Bryant, 1986).
pub fn canonicity()
    ensures { CanonicityLaw }
{}

/// A table of which each node is reached from a list has exactly the nodes that the functions of the list need.
pub fn size_is_need()
    ensures { SizeLaw }
{}
