ghost use Rattle.std.specs.Prelude.{◌≡◌, ◌≤◌, ◌+◌, [], length, OnOk, IfOk};
ghost use Rattle.cov_space.specs.Sets.{set_at};
ghost use Rattle.cov_space.specs.Layers.{IgnoresLayer};
ghost use Rattle.cov_space.specs.declared.layer.Layer.TheVariants.{N};
ghost use Rattle.cov_image.specs.Relations.{IsRelation};

use cov_image::{Relation, post, pre, reach};
use cov_space::{Slots, Space};
use std::alloc::Global;
use std::test::Fail;

// A bit that each step inverts: the first set has its state 1, the last one its state 0.
fn flip(alloc: Global, sp: &mut Space) -> Result<Relation, Fail>
    requires levels { sp.old.levels ≡ 3 }
    requires none { sp.old.sets ≡ [] }
    requires room { 24 ≤ sp.old.places }
    ensures relation { IfOk result (λ r. IsRelation sp.new r.parts) }
    ensures start { OnOk result (IgnoresLayer sp.new.levels N (set_at sp.new.sets 3)) }
    ensures count { OnOk result (length sp.new.sets ≡ 4) }
    ensures places { OnOk result (sp.new.places ≡ sp.old.places) }
{
    sp.bit(1)?;
    sp.bit(2)?;
    sp.xor(0, 1)?;
    sp.not(0)?;
    let mut parts = Slots::new(alloc);
    parts.push(2)?;
    Ok(Relation { parts })
}

#[test]
fn state_1_steps_into_state_0(rt: HostRuntime) -> Result<(), Fail> {
    let mut sp = Space::make(rt.alloc(), 3, 200, 24)?;
    let r = flip(rt.alloc(), &mut sp)?;
    pre(&mut sp, &r, 3)?;
    assert_eq!(rt; sp.sets(), 5);
    assert!(rt; sp.same(4, 0));
    Ok(())
}

#[test]
fn state_0_steps_to_state_1(rt: HostRuntime) -> Result<(), Fail> {
    let mut sp = Space::make(rt.alloc(), 3, 200, 24)?;
    let r = flip(rt.alloc(), &mut sp)?;
    post(&mut sp, &r, 3)?;
    assert_eq!(rt; sp.sets(), 5);
    assert!(rt; sp.same(4, 0));
    Ok(())
}

#[test]
fn both_states_are_reached(rt: HostRuntime) -> Result<(), Fail> {
    let mut sp = Space::make(rt.alloc(), 3, 200, 24)?;
    let r = flip(rt.alloc(), &mut sp)?;
    reach(&mut sp, &r, 3)?;
    assert_eq!(rt; sp.sets(), 5);
    sp.constant(true);
    assert!(rt; sp.same(4, 5));
    Ok(())
}
