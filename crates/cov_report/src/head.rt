ghost use Rattle.std.specs.Prelude.{◌≡◌, ◌++◌, codes, OnOk, OnErr};

use cov_syntax::{NoMemory, Text};

/// Appends the line of a model without a fair initial state.
pub fn no_fair_line(into: &mut Text) -> Result<(), NoMemory>
    ensures ok { OnOk result (into.new ≡ into.old ++ codes "no fair initial state\n") }
    ensures err { OnErr result (into.new ≡ into.old) }
{
    into.extend_from_slice(b"no fair initial state\n")
}

/// Appends the line of a model without a specification.
pub fn no_specs_line(into: &mut Text) -> Result<(), NoMemory>
    ensures ok { OnOk result (into.new ≡ into.old ++ codes "no specifications\n") }
    ensures err { OnErr result (into.new ≡ into.old) }
{
    into.extend_from_slice(b"no specifications\n")
}
