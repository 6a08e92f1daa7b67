ghost use Rattle.std.specs.Prelude.{ℕ, List, IsTrue};
ghost use Rattle.std.specs.List.{list_all};
ghost use Rattle.cov_classes.specs.Cubes.{Set, cubes};
ghost use Rattle.cov_classes.specs.Partition.{IsPartition, IsFirst, first_state, is_cube};

/// Each state of a set lies in exactly one of its cubes, and no other state lies in one.
pub fn partition()
    ensures { (counts : List ℕ) (set : Set) → IsPartition counts set }
{}

/// Each cube has one class for each variable, none of them empty.
pub fn proper()
    ensures { (counts : List ℕ) (set : Set) → IsTrue (list_all (is_cube counts) (cubes counts set)) }
{}

/// The first state is the least of the set by value places.
pub fn first()
    ensures { (counts : List ℕ) (set : Set) → IsFirst counts set (first_state counts set) }
{}
