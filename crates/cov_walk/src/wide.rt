ghost use Rattle.std.specs.Prelude.{◌≤◌};

use crate::arms::Arms;
use crate::found::Found;
use crate::members::Members;

/// What the walk finds at an expression, and the greatest number of values of the own kinds there and below.
#[derive(Drop)]
pub(crate) struct Wide {
    pub(crate) found: Found,
    pub(crate) widest: u32,
    ghost few: { widest ≤ 1024 },
}

/// What the walk finds at members, and the greatest number of values of the own kinds there and below.
#[derive(Drop)]
pub(crate) struct WideMembers {
    pub(crate) members: Members,
    pub(crate) widest: u32,
    ghost few: { widest ≤ 1024 },
}

/// What the walk finds at branches, and the greatest number of values of the own kinds there and below.
#[derive(Drop)]
pub(crate) struct WideArms {
    pub(crate) arms: Arms,
    pub(crate) widest: u32,
    ghost few: { widest ≤ 1024 },
}
