ghost use Rattle.std.specs.Prelude.{◌≡◌, ◌≤◌, ◌+◌, [], length, OnOk, IfOk};
ghost use Rattle.cov_space.specs.Sets.{set_at};
ghost use Rattle.cov_space.specs.Layers.{IgnoresLayer};
ghost use Rattle.cov_space.specs.declared.layer.Layer.TheVariants.{N};
ghost use Rattle.cov_image.specs.Relations.{IsRelation};
ghost use Rattle.cov_fair.specs.Structures.{IsFairness};

use cov_fair::{eg, eu, ex, fair};
use cov_image::Relation;
use cov_space::{Slots, Space};
use std::alloc::Global;
use std::test::Fail;

#[derive(Drop)]
struct Rising {
    relation: Relation,
    fairness: Slots,
}

// A bit that stays, or rises from 0 to 1, and is fair at 0: so its state 0 alone starts a fair lasso, which stays there.
// Set 0 has the state 1, set 2 the state 0.
fn make_rising(alloc: Global, sp: &mut Space) -> Result<Rising, Fail>
    requires levels { sp.old.levels ≡ 3 }
    requires none { sp.old.sets ≡ [] }
    requires room { 28 ≤ sp.old.places }
    ensures relation { IfOk result (λ r. IsRelation sp.new r.relation.parts) }
    ensures fairness { IfOk result (λ r. IsFairness sp.new r.fairness) }
    ensures high { OnOk result (IgnoresLayer sp.new.levels N (set_at sp.new.sets 0)) }
    ensures low { OnOk result (IgnoresLayer sp.new.levels N (set_at sp.new.sets 2)) }
    ensures count { OnOk result (length sp.new.sets ≡ 4) }
    ensures places { OnOk result (sp.new.places ≡ sp.old.places) }
{
    sp.bit(1)?;
    sp.bit(2)?;
    sp.not(0)?;
    sp.or(2, 1)?;
    let mut parts = Slots::new(alloc);
    parts.push(3)?;
    let mut fairness = Slots::new(alloc);
    fairness.push(2)?;
    Ok(Rising {
        relation: Relation { parts },
        fairness,
    })
}

#[test]
fn state_0_starts_a_fair_lasso(rt: HostRuntime) -> Result<(), Fail> {
    let mut sp = Space::make(rt.alloc(), 3, 300, 28)?;
    let r = make_rising(rt.alloc(), &mut sp)?;
    fair(&mut sp, &r.relation, &r.fairness)?;
    assert_eq!(rt; sp.sets(), 5);
    assert!(rt; sp.same(4, 2));
    Ok(())
}

#[test]
fn no_fair_lasso_rises(rt: HostRuntime) -> Result<(), Fail> {
    let mut sp = Space::make(rt.alloc(), 3, 300, 28)?;
    let r = make_rising(rt.alloc(), &mut sp)?;
    ex(&mut sp, &r.relation, 2, 0)?;
    assert_eq!(rt; sp.sets(), 5);
    sp.constant(false);
    assert!(rt; sp.same(4, 5));
    Ok(())
}

#[test]
fn state_0_is_at_the_goal(rt: HostRuntime) -> Result<(), Fail> {
    let mut sp = Space::make(rt.alloc(), 3, 300, 28)?;
    let r = make_rising(rt.alloc(), &mut sp)?;
    eu(&mut sp, &r.relation, 2, 0, 2)?;
    assert_eq!(rt; sp.sets(), 5);
    assert!(rt; sp.same(4, 2));
    Ok(())
}

#[test]
fn state_0_stays(rt: HostRuntime) -> Result<(), Fail> {
    let mut sp = Space::make(rt.alloc(), 3, 300, 28)?;
    let r = make_rising(rt.alloc(), &mut sp)?;
    eg(&mut sp, &r.relation, &r.fairness, 2)?;
    assert_eq!(rt; sp.sets(), 5);
    assert!(rt; sp.same(4, 2));
    Ok(())
}
