ghost use Rattle.std.specs.Prelude.{◌≡◌, ◌≤◌, ◌<◌, ◌+◌, ◌*◌, ◌∷◌, [], length, Some, OnOk, IfErr};
ghost use Rattle.cov_bits.specs.Layout as layout;
ghost use Rattle.cov_image.specs.Stacks.{below};
ghost use Rattle.cov_model.specs.Atoms.{IsAtomOf};
ghost use Rattle.cov_space.specs.declared.layer.Layer.TheVariants.{W, V};
ghost use Rattle.cov_space.specs.Answers.{IsCallFault, PutsSet};
ghost use Rattle.cov_space.specs.Operations.{intersection};
ghost use Rattle.cov_space.specs.Sets.{set_at, HasRoom};
ghost use Rattle.cov_space.specs.Steps.{with_more, Leaves};
ghost use Rattle.cov_places.specs.Places.{typed_set};
ghost use Rattle.cov_nodes.specs.Points.{at_layer};
ghost use Rattle.cov_conditions.specs.Conditions.{condition_set, expression_room};
ghost use Rattle.cov_sym.specs.Pairs.{chosen_set, read_set};
ghost use Rattle.cov_sym.specs.Systems.{atom_set};

use crate::differing::put_differing;
use cov_bits::Plan;
use cov_conditions::put_condition;
use cov_model::Signal;
use cov_nodes::Reading;
use cov_places::put_typed;
use cov_readings::{atoms_are_single, expressions_are_shallow};
use cov_space::{Layer, Slot, Space, SpaceFault};
use cov_syntax::Expr;
use cov_types::Checked;
use std::alloc::Global;

/// Puts the rows whose state on layer V is typed and has the atom, with a signal inverted there.
fn put_reading(
    alloc: Global,
    sp: &mut Space,
    m: &Checked,
    plan: &Plan,
    e: &Expr,
    flip: Option<Signal>,
) -> Result<(), SpaceFault>
    requires plan { plan.now ≡ layout.sizes m.now.vars }
    requires levels { sp.old.levels ≡ 3 * layout.bits plan.now }
    requires atom { IsAtomOf m.now e.now }
    requires room { HasRoom sp.old (expression_room m.now) }
    ensures ok { OnOk result (PutsSet sp.old sp.new (condition_set sp.old.levels m.now (at_layer V flip) e.now)) }
    ensures err { IfErr result (λ f. IsCallFault sp.old sp.new f) }
{
    let _model = m.model();
    expressions_are_shallow();
    atoms_are_single();
    put_condition(alloc, sp, m, plan, Reading::at(Layer::V, flip), e)
}

/// Keeps of the last set, which stands at `n`, the pairs whose state on layer W is typed.
fn meet_typed(sp: &mut Space, m: &Checked, plan: &Plan, n: Slot) -> Result<(), SpaceFault>
    requires plan { plan.now ≡ layout.sizes m.now.vars }
    requires levels { sp.old.levels ≡ 3 * layout.bits plan.now }
    requires last { length sp.old.sets ≡ n + 1 }
    requires room { n + 13 ≤ sp.old.places }
    ensures ok { OnOk result (sp.new ≡ with_more (below sp.old n) (intersection sp.old.levels (set_at sp.old.sets n) (typed_set sp.old.levels plan.now W) ∷ [])) }
    ensures err { IfErr result (λ f. Leaves (below sp.old n) sp.new f) }
{
    let _sets = sp.sets();
    put_typed(sp, m.model(), plan, Layer::W)?;
    sp.and(n, n + 1)?;
    sp.settle(n);
    Ok(())
}

/// Puts the pairs of typed states at which an atom is true, with a signal inverted at each of them.
fn put_read(
    alloc: Global,
    sp: &mut Space,
    m: &Checked,
    plan: &Plan,
    e: &Expr,
    flip: Option<Signal>,
) -> Result<(), SpaceFault>
    requires plan { plan.now ≡ layout.sizes m.now.vars }
    requires levels { sp.old.levels ≡ 3 * layout.bits plan.now }
    requires atom { IsAtomOf m.now e.now }
    requires room { HasRoom sp.old (expression_room m.now) }
    ensures ok { OnOk result (PutsSet sp.old sp.new (read_set sp.old.levels m.now flip e.now)) }
    ensures err { IfErr result (λ f. Leaves sp.old sp.new f) }
{
    let n = sp.sets();
    put_reading(alloc, sp, m, plan, e, flip)?;
    meet_typed(sp, m, plan, n)
}

/// Exchanges the last three sets, the first of which stands at `n`, for the rows of the first among those of the third,
/// and of the second elsewhere.
fn choose(sp: &mut Space, n: Slot) -> Result<(), SpaceFault>
    requires last { length sp.old.sets ≡ n + 3 }
    requires room { n + 9 ≤ sp.old.places }
    ensures ok { OnOk result (sp.new ≡ with_more (below sp.old n) (chosen_set sp.old.levels (set_at sp.old.sets n) (set_at sp.old.sets (n + 1)) (set_at sp.old.sets (n + 2)) ∷ [])) }
    ensures err { IfErr result (λ f. Leaves (below sp.old n) sp.new f) }
{
    let _sets = sp.sets();
    sp.xor(n, n + 1)?;
    sp.and(n + 2, n + 3)?;
    sp.xor(n + 1, n + 4)?;
    sp.settle(n);
    Ok(())
}

/// Puts the pairs of typed states at which an atom is true, with the signal inverted at the pairs of one state alone. The
/// second reading needs places beside those of an expression.
fn put_inverted(
    alloc: Global,
    sp: &mut Space,
    m: &Checked,
    plan: &Plan,
    e: &Expr,
    signal: Signal,
) -> Result<(), SpaceFault>
    requires plan { plan.now ≡ layout.sizes m.now.vars }
    requires levels { sp.old.levels ≡ 3 * layout.bits plan.now }
    requires atom { IsAtomOf m.now e.now }
    requires room { HasRoom sp.old (expression_room m.now + 2) }
    ensures ok { OnOk result (PutsSet sp.old sp.new (atom_set sp.old.levels m.now (Some signal) e.now)) }
    ensures err { IfErr result (λ f. Leaves sp.old sp.new f) }
{
    let n = sp.sets();
    put_reading(alloc, sp, m, plan, e, None)?;
    put_reading(alloc, sp, m, plan, e, Some(signal))?;
    put_differing(sp, plan)?;
    choose(sp, n)?;
    meet_typed(sp, m, plan, n)
}

/// Puts the pairs of typed states at which an atom is true, with the signal inverted at the pairs of one state alone. In a
/// model without bits there is one pair of states, and they are the same. Where it is refused, what it made stays behind
/// the sets of before.
pub(crate) fn atom_steps(
    alloc: Global,
    sp: &mut Space,
    m: &Checked,
    plan: &Plan,
    e: &Expr,
    signal: Option<Signal>,
) -> Result<(), SpaceFault>
    requires plan { plan.now ≡ layout.sizes m.now.vars }
    requires levels { sp.old.levels ≡ 3 * layout.bits plan.now }
    requires atom { IsAtomOf m.now e.now }
    requires room { HasRoom sp.old (2 * layout.bits plan.now + expression_room m.now) }
    ensures ok { OnOk result (PutsSet sp.old sp.new (atom_set sp.old.levels m.now signal e.now)) }
    ensures err { IfErr result (λ f. Leaves sp.old sp.new f) }
{
    match signal {
        None => put_read(alloc, sp, m, plan, e, None),
        Some(_) if plan.bits() == 0 => put_read(alloc, sp, m, plan, e, signal),
        Some(s) => put_inverted(alloc, sp, m, plan, e, s),
    }
}
