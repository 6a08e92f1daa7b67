ghost use Rattle.std.specs.Prelude.{◌≡◌, ◌≤◌, ◌+◌, ◌*◌, length, IsTrue, OnOk, IfErr};
ghost use Rattle.cov_space.specs.Sets.{HasRoom};
ghost use Rattle.cov_space.specs.Answers.{IsCallFault};
ghost use Rattle.cov_nodes.specs.Choices.{IsChunk, PutsFamily};
ghost use Rattle.cov_nodes.specs.Standing.{define_choice, has_entry};
ghost use Rattle.cov_expressions.specs.Scopes.{IsScope};

use crate::scope::Scope;
use cov_nodes::put_define;
use cov_space::{Space, SpaceFault};
use cov_syntax::Value;
use std::alloc::Global;

/// Puts the family of a DEFINE whose sets stand.
pub(crate) fn put_defined(
    alloc: Global,
    sp: &mut Space,
    scope: &Scope<'_>,
    i: u32,
    xs: &[Value],
) -> Result<(), SpaceFault>
    requires scope { IsScope sp.old scope.now }
    requires entry { IsTrue (has_entry scope.now.here.now i) }
    requires chunk { IsChunk sp.old.levels xs.now }
    requires room { HasRoom sp.old 16 }
    ensures ok { OnOk result (PutsFamily sp.old sp.new scope.now.m.now scope.now.at xs.now (define_choice i)) }
    ensures err { IfErr result (λ f. IsCallFault sp.old sp.new f) }
{
    match scope.here.get(i as usize) {
        Some(standing) => put_define(alloc, sp, scope.m.model(), scope.at, i, standing, xs),
        None => unreachable!(),
    }
}
