ghost use Rattle.std.specs.Prelude.{◌≡◌, ◌≤◌, IfNone, IfSome, IsFalse, Some, length, slice_get};
ghost use Rattle.cov_model.specs.Order.{has};
ghost use Rattle.cov_types.specs.Signals.{define_names, variable_names};

use cov_model::{Define, Var};

/// The place of the variable that has a name. There are at least as many names as variables.
pub(crate) fn variable_named(vars: &[Var], names: u32, name: u32) -> Option<u32>
    requires { length vars.now ≤ names }
    ensures found { IfSome result (λ i. slice_get (variable_names vars.now) i ≡ Some name) }
    ensures none { IfNone result (IsFalse (has (variable_names vars.now) name)) }
{
    for i in 0..names {
        let x = vars.get(i as usize)?;
        if x.name == name {
            return Some(i);
        }
    }
    None
}

/// The place of the DEFINE that has a name. There are at least as many names as DEFINEs.
pub(crate) fn define_named(defines: &[Define], names: u32, name: u32) -> Option<u32>
    requires { length defines.now ≤ names }
    ensures found { IfSome result (λ i. slice_get (define_names defines.now) i ≡ Some name) }
    ensures none { IfNone result (IsFalse (has (define_names defines.now) name)) }
{
    for i in 0..names {
        let d = defines.get(i as usize)?;
        if d.name == name {
            return Some(i);
        }
    }
    None
}
