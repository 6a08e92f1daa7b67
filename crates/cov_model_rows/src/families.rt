ghost use Rattle.std.specs.Prelude.{◌≡◌, IfOk};
ghost use Rattle.cov_families.specs.Families.{IsTable};

use cov_families::{Table, index_of, put_combined, put_read};
use cov_fields::Field;
use cov_space::{Layer, Space};
use cov_syntax::{NoMemory, Seq};
use std::alloc::Global;
use std::test::Fail;

/// The first bit on the layer of present states.
const FIRST: Field = Field {
    layer: Layer::V,
    first: 0,
    width: 1,
};

/// The second one.
const SECOND: Field = Field {
    layer: Layer::V,
    first: 1,
    width: 1,
};

#[test]
fn each_number_is_sent_to_the_other(rt: HostRuntime) -> Result<(), Fail> {
    let mut sp = Space::make(rt.alloc(), 6, 640, 12)?;
    put_read(&mut sp, FIRST, SECOND, &[Some(1), None])?;
    assert!(rt; sp.at(0, &[false, false, false, false, true, false]));
    assert!(rt; !sp.at(0, &[false, false, false, false, false, false]));
    assert!(rt; !sp.at(0, &[false, true, false, false, true, false]));
    assert!(rt; !sp.at(0, &[false, true, false, false, false, false]));
    Ok(())
}

/// The sum of two bits, where it is 0 or 1.
fn sums(alloc: Global) -> Result<Table, NoMemory>
    ensures table { IfOk result (λ t. IsTable 6 t 2) }
    ensures columns { IfOk result (λ t. t.columns ≡ 2) }
{
    let mut targets = Seq::new(alloc);
    targets.extend_from_slice(&[None, Some(0), Some(0), Some(1)])?;
    Ok(Table {
        rows: 2,
        columns: 2,
        targets,
    })
}

#[test]
fn two_bits_are_both_set_or_one_alone(rt: HostRuntime) -> Result<(), Fail> {
    let mut sp = Space::make(rt.alloc(), 6, 640, 18)?;
    let table = sums(rt.alloc())?;
    put_read(&mut sp, index_of(2), FIRST, &[Some(0), Some(1)])?;
    put_read(&mut sp, index_of(2), SECOND, &[Some(0), Some(1)])?;
    put_combined(&mut sp, 0, 1, &table, 2)?;
    assert!(rt; sp.at(2, &[true, true, false, false, true, false]));
    assert!(rt; !sp.at(2, &[false, true, false, false, true, false]));
    assert!(rt; sp.at(2, &[false, true, false, false, false, false]));
    assert!(rt; !sp.at(2, &[false, false, false, false, false, false]));
    Ok(())
}
