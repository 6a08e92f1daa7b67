ghost use Rattle.std.specs.Prelude.{◌≡◌, ◌≢◌, ◌<◌, ◌≤◌, ◌+◌, ◌*◌, length, None, IfOk, IfErr};
ghost use Rattle.cov_bits.specs.Layout as layout;
ghost use Rattle.cov_model.specs.Settled.{kinds_of};
ghost use Rattle.cov_types.specs.Roots.{define_sets};
ghost use Rattle.cov_space.specs.declared.layer.Layer.TheVariants as layers;
ghost use Rattle.cov_space.specs.Sets.{HasRoom};
ghost use Rattle.cov_space.specs.Steps.{Leaves};
ghost use Rattle.cov_nodes.specs.Standing.{AreStanding};
ghost use Rattle.cov_expressions.specs.Scopes.{IsScope};
ghost use Rattle.cov_conditions.specs.Bodies.{HaveEntries, PutsDefines, PutsEntry, body_room, sets_at};
ghost use Rattle.cov_conditions.specs.Marks.{AreClosed};

use crate::bodies::put_define;
use cov_bits::Plan;
use cov_expressions::Scope;
use cov_nodes::{Defines, Reading, Standing};
use cov_readings::defines_read_earlier;
use cov_space::{Layer, Space, SpaceFault};
use cov_syntax::Seq;
use cov_types::Checked;
use std::alloc::Global;

/// Puts the sets of a DEFINE where it is marked.
fn put_entry(
    alloc: Global,
    sp: &mut Space,
    scope: &Scope<'_>,
    i: u32,
    marks: &[bool],
) -> Result<Option<Standing>, SpaceFault>
    requires scope { IsScope sp.old scope.now }
    requires present { scope.now.at.present ≢ layers.W }
    requires next { scope.now.at.next ≢ layers.W }
    requires define { i < length scope.now.m.now.defines }
    requires count { length marks.now ≡ length scope.now.m.now.defines }
    requires closed { AreClosed scope.now.m.now.defines marks.now }
    requires here { HaveEntries marks.now i scope.now.here.now }
    requires there { HaveEntries marks.now i scope.now.there.now }
    requires room { HasRoom sp.old (sets_at scope.now.m.now i + body_room scope.now.m.now) }
    ensures ok { IfOk result (PutsEntry sp.old sp.new scope.now.m.now scope.now.at.present scope.now.at.flip marks.now i) }
    ensures err { IfErr result (λ f. Leaves sp.old sp.new f) }
{
    defines_read_earlier();
    if !marks[i as usize] {
        return Ok(None);
    }
    Ok(Some(put_define(alloc, sp, scope, i)?))
}

/// Puts the sets of the marked DEFINEs, read in the state on a layer without a flip.
pub(crate) fn put_alone(
    alloc: Global,
    sp: &mut Space,
    m: &Checked,
    plan: &Plan,
    layer: Layer,
    marks: &[bool],
) -> Result<Defines, SpaceFault>
    requires plan { plan.now ≡ layout.sizes m.now.vars }
    requires levels { sp.old.levels ≡ 3 * layout.bits plan.now }
    requires states { layer ≢ layers.W }
    requires count { length marks.now ≡ length m.now.defines }
    requires closed { AreClosed m.now.defines marks.now }
    requires room { HasRoom sp.old (define_sets (kinds_of m.now) m.now.defines + body_room m.now) }
    ensures ok { IfOk result (λ entries. PutsDefines sp.old sp.new m.now layer None marks.now (length m.now.defines) entries (define_sets (kinds_of m.now) m.now.defines)) }
    ensures err { IfErr result (λ f. Leaves sp.old sp.new f) }
{
    let at = Reading::at(layer, None);
    let mut here = Seq::new(alloc);
    for i in 0..m.model().defines.len() {
        let scope = Scope {
            m,
            plan,
            at,
            here: &here,
            there: &here,
        };
        let entry = put_entry(alloc, sp, &scope, i as u32, marks)?;
        if here.push(entry).is_err() {
            return Err(SpaceFault::Memory);
        }
    }
    Ok(here)
}

/// Puts the sets of the marked DEFINEs, read in the present state, beside those for the next state.
pub(crate) fn put_beside(
    alloc: Global,
    sp: &mut Space,
    m: &Checked,
    plan: &Plan,
    at: Reading,
    marks: &[bool],
    there: &Defines,
) -> Result<Defines, SpaceFault>
    requires plan { plan.now ≡ layout.sizes m.now.vars }
    requires levels { sp.old.levels ≡ 3 * layout.bits plan.now }
    requires present { at.present ≢ layers.W }
    requires next { at.next ≢ layers.W }
    requires count { length marks.now ≡ length m.now.defines }
    requires closed { AreClosed m.now.defines marks.now }
    requires stand { AreStanding sp.old m.now at.next None there.now }
    requires there { HaveEntries marks.now (length m.now.defines) there.now }
    requires room { HasRoom sp.old (define_sets (kinds_of m.now) m.now.defines + body_room m.now) }
    ensures ok { IfOk result (λ entries. PutsDefines sp.old sp.new m.now at.present at.flip marks.now (length m.now.defines) entries (define_sets (kinds_of m.now) m.now.defines)) }
    ensures err { IfErr result (λ f. Leaves sp.old sp.new f) }
{
    let mut here = Seq::new(alloc);
    for i in 0..m.model().defines.len() {
        let scope = Scope {
            m,
            plan,
            at,
            here: &here,
            there,
        };
        let entry = put_entry(alloc, sp, &scope, i as u32, marks)?;
        if here.push(entry).is_err() {
            return Err(SpaceFault::Memory);
        }
    }
    Ok(here)
}
