ghost use Rattle.std.specs.Prelude.{◌≡◌, ◌<◌, ◌≤◌, ◌+◌, ◌*◌, length, IsTrue, OnOk, IfErr};
ghost use Rattle.cov_model.specs.Flat.{depth};
ghost use Rattle.cov_model.specs.Meaning.{allows};
ghost use Rattle.cov_ranges.specs.Ranges.{IsExpressionOf};
ghost use Rattle.cov_types.specs.Roots.{greatest_width};
ghost use Rattle.cov_space.specs.Sets.{HasRoom};
ghost use Rattle.cov_space.specs.Answers.{IsCallFault};
ghost use Rattle.cov_nodes.specs.Choices.{IsChunk, PutsFamily};
ghost use Rattle.cov_expressions.specs.Scopes.{IsScope, reads_standing};

use crate::scope::Scope;
use crate::walk::put_tree;
use cov_space::{Space, SpaceFault};
use cov_syntax::{Expr, Value};
use std::alloc::Global;

/// Puts the family of the choices of an expression over these values: the one set of its choices at each point, the
/// number of a value being held on layer W.
pub fn put_expr(
    alloc: Global,
    sp: &mut Space,
    scope: &Scope<'_>,
    e: &Expr,
    xs: &[Value],
) -> Result<(), SpaceFault>
    requires scope { IsScope sp.old scope.now }
    requires expression { IsExpressionOf scope.now.m.now e.now }
    requires reads { IsTrue (reads_standing scope.now e.now) }
    requires chunk { IsChunk sp.old.levels xs.now }
    requires narrow { length xs.now ≤ greatest_width scope.now.m.now }
    requires room { HasRoom sp.old ((3 * greatest_width scope.now.m.now + 4) * depth e.now + 7) }
    ensures ok { OnOk result (PutsFamily sp.old sp.new scope.now.m.now scope.now.at xs.now (allows e.now)) }
    ensures err { IfErr result (λ f. IsCallFault sp.old sp.new f) }
{
    let n = sp.sets();
    match put_tree(alloc, sp, scope, e, xs) {
        Ok(()) => Ok(()),
        Err(fault) => {
            sp.cut(n);
            Err(fault)
        }
    }
}
