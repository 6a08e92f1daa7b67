use cov_fields::{Field, is_empty, put_number, restrict_to};
use cov_space::{Layer, Space};
use std::test::Fail;

/// Two bits on the layer of present states.
const FIELD: Field = Field {
    layer: Layer::V,
    first: 0,
    width: 2,
};

#[test]
fn two_is_one_and_zero(rt: HostRuntime) -> Result<(), Fail> {
    let mut sp = Space::make(rt.alloc(), 6, 640, 9)?;
    put_number(&mut sp, FIELD, 2)?;
    assert!(rt; sp.at(0, &[false, true, false, false, false, false]));
    assert!(rt; !sp.at(0, &[false, false, false, false, true, false]));
    Ok(())
}

#[test]
fn rest_sets_do_not_depend_on_the_field(rt: HostRuntime) -> Result<(), Fail> {
    let mut sp = Space::make(rt.alloc(), 6, 640, 9)?;
    put_number(&mut sp, FIELD, 2)?;
    restrict_to(&mut sp, 0, FIELD, 2)?;
    restrict_to(&mut sp, 0, FIELD, 3)?;
    assert!(rt; sp.at(1, &[false; 6]));
    assert!(rt; !is_empty(&mut sp, 1));
    assert!(rt; is_empty(&mut sp, 2));
    Ok(())
}
