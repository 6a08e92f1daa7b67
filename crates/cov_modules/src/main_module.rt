ghost use Rattle.std.specs.Prelude.{◌≡◌, ◌<◌, length, IfNone, IfSome, slice_get, None};
ghost use Rattle.cov_modules.specs.Modules as spec;
ghost use Rattle.cov_modules.specs.Conditions.{IsFlattenable};

use cov_syntax::{ModuleTree, Program};

/// Whether the module is called `main`.
pub fn is_main(p: &Program, m: &ModuleTree) -> bool
    requires { m.now.name.name < length p.now.names }
    ensures { result ≡ spec.is_main p.now m.now }
{
    p.names.text(m.name.name) == b"main".as_slice()
}

/// The place of the module `main`.
pub fn main_place(p: &Program) -> Option<usize>
    requires { IsFlattenable p.now }
    ensures none { IfNone result (spec.main_of p.now ≡ None) }
    ensures found { IfSome result (λ i. slice_get p.now.modules i ≡ spec.main_of p.now) }
    ensures below { IfSome result (λ i. i < length p.now.modules) }
{
    for (i, m) in p.modules.as_slice().iter().enumerate() {
        if is_main(p, m) {
            return Some(i);
        }
    }
    None
}
