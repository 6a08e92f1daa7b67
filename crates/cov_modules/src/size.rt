ghost use Rattle.std.specs.Prelude.{◌≡◌, IsTrue};
ghost use Rattle.cov_modules.specs.Sizes as spec;

/// The most flat names.
const MOST_NAMES: u32 = 4096;

/// The most nodes.
const MOST_NODES: u32 = 1_000_000;

/// A number of flat names, and one of nodes.
#[derive(Clone, Copy, Debug)]
pub struct Size {
    pub names: u32,
    pub nodes: u32,
}

/// One of the limits is passed.
pub fn is_over(a: Size) -> bool
    ensures { result ≡ spec.is_over a }
{
    a.names > MOST_NAMES || a.nodes > MOST_NODES
}

/// The size itself within the limits, and one size for all others.
fn capped(a: Size) -> Size
    ensures { result ≡ spec.capped a }
{
    if is_over(a) {
        Size {
            names: MOST_NAMES + 1,
            nodes: MOST_NODES + 1,
        }
    } else {
        a
    }
}

/// Two sizes together, up to the limits.
pub fn plus(a: Size, b: Size) -> Size
    ensures { result ≡ spec.capped (spec.both a b) }
{
    capped(Size {
        names: a.names.saturating_add(b.names),
        nodes: a.nodes.saturating_add(b.nodes),
    })
}

/// Whether two sizes are equal.
pub fn is_same(a: Size, b: Size) -> bool
    ensures { IsTrue result → a ≡ b }
{
    a.names == b.names && a.nodes == b.nodes
}
