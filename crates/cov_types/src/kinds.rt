ghost use Rattle.std.specs.Prelude.{◌≡◌};
ghost use Rattle.cov_model.specs.Kinds.{is_boolean, kind_at};

use cov_kinds::KindTable;

/// Whether the variable is Boolean.
pub(crate) fn is_boolean_variable(kinds: &KindTable, i: u32) -> bool
    ensures { result ≡ is_boolean (kind_at kinds.now.vars i) }
{
    match kinds.var(i) {
        Some(k) => k.is_boolean(),
        None => true,
    }
}

/// Whether the DEFINE is Boolean.
pub(crate) fn is_boolean_define(kinds: &KindTable, i: u32) -> bool
    ensures { result ≡ is_boolean (kind_at kinds.now.defs i) }
{
    match kinds.def(i) {
        Some(k) => k.is_boolean(),
        None => true,
    }
}
