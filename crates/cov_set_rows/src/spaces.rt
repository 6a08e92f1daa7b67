use cov_space::{Layer, Meter, NodesFull, Space, SpaceFault};
use std::test::Fail;

#[test]
fn full_table_refuses_a_second_set(rt: HostRuntime) -> Result<(), Fail> {
    let mut full = Space::make(rt.alloc(), 3, 1, 8)?;
    full.bit(0)?;
    let refused = NodesFull {
        held: 1,
        budget: 1,
        roots: 1,
    };
    assert_eq!(rt; full.bit(1), Err(SpaceFault::Nodes(refused)));
    assert_eq!(rt; full.sets(), 1);
    let ample = Space::make(rt.alloc(), 3, 72, 8)?;
    let mut meter = Meter::new();
    meter.tell(&ample);
    assert_eq!(rt; (meter.count(), meter.levels(), meter.budget()), (0, 0, 0));
    meter.tell(&full);
    assert_eq!(rt; (meter.count(), meter.levels(), meter.budget()), (1, 3, 1));
    Ok(())
}

#[test]
fn dropped_sets_make_room(rt: HostRuntime) -> Result<(), Fail> {
    let mut sp = Space::make(rt.alloc(), 3, 1, 8)?;
    sp.bit(0)?;
    sp.cut(0);
    sp.bit(1)?;
    sp.collect()?;
    assert_eq!(rt; sp.refused(), 0);
    assert_eq!(rt; sp.depends(0, 1)?, true);
    assert_eq!(rt; sp.depends(0, 0)?, false);
    Ok(())
}

#[test]
fn shift_reads_on_the_next_layer(rt: HostRuntime) -> Result<(), Fail> {
    let mut sp = Space::make(rt.alloc(), 3, 72, 8)?;
    sp.bit(1)?;
    sp.shift(0, Layer::V, Layer::N)?;
    sp.bit(2)?;
    assert!(rt; sp.same(1, 2));
    Ok(())
}

#[test]
fn operations_within_the_bound(rt: HostRuntime) -> Result<(), Fail> {
    let mut sp = Space::make(rt.alloc(), 3, 72, 8)?;
    sp.bit(1)?;
    sp.bit(2)?;
    sp.xor(0, 1)?;
    assert!(rt; sp.at(2, &[false, true, false]));
    assert!(rt; !sp.at(2, &[false, true, true]));
    sp.and_exists(2, 1, &[2])?;
    sp.not(0)?;
    assert!(rt; sp.same(3, 4));
    Ok(())
}

#[test]
fn quantified_union_is_all(rt: HostRuntime) -> Result<(), Fail> {
    let mut sp = Space::make(rt.alloc(), 3, 72, 8)?;
    sp.bit(1)?;
    sp.bit(2)?;
    sp.or(0, 1)?;
    sp.restrict(2, 2, false)?;
    assert!(rt; sp.same(3, 0));
    sp.exists(2, &[1])?;
    sp.constant(true);
    assert!(rt; sp.same(4, 5));
    Ok(())
}
