ghost use Rattle.std.specs.Prelude.{◌≡◌, IfOk};
ghost use Rattle.cov_dd.specs.Nodes.{IsLive};

use cov_dd::{Op, Ref, Refs, Table};
use std::alloc::Global;
use std::process::Abort;
use std::test::Fail;

/// A table over two levels, and the diagrams of its bits.
fn two_bits(alloc: Global) -> Result<(Table, Ref, Ref), Fail>
    ensures { IfOk result (λ made. (made.0.levels ≡ 2) × IsLive made.0.nodes made.1 × IsLive made.0.nodes made.2) }
{
    let mut table = Table::make(alloc, 2, 16)?;
    let (zero, one) = (table.zero(), table.one());
    let second = table.mk(1, zero, one)?;
    let first = table.mk(0, zero, one)?;
    Ok((table, first, second))
}

/// The values of a diagram at the rows 00, 01, 10 and 11.
fn values(table: &Table, f: Ref) -> [bool; 4]
    requires f { IsLive table.now.nodes f }
    requires levels { table.now.levels ≡ 2 }
{
    [
        table.at(f, &[false, false]),
        table.at(f, &[false, true]),
        table.at(f, &[true, false]),
        table.at(f, &[true, true]),
    ]
}

#[test]
fn xor_of_two_bits(rt: HostRuntime) -> Result<(), Fail> {
    let (mut table, first, second) = two_bits(rt.alloc())?;
    let differ = table.apply(Op::Xor, first, second)?;
    assert_eq!(rt; values(&table, differ), [false, true, true, false]);
    let agree = table.not(differ)?;
    assert_eq!(rt; values(&table, agree), [true, false, false, true]);
    let with_first = table.restrict(agree, 0, true)?;
    assert_eq!(rt; values(&table, with_first), [false, true, false, true]);
    Ok(())
}

#[test]
fn collection_keeps_what_is_reached(rt: HostRuntime) -> Result<(), Fail> {
    let (mut table, first, second) = two_bits(rt.alloc())?;
    let both = table.apply(Op::And, first, second)?;
    assert_eq!(rt; table.held(), 3);
    let mut keep = Refs::new(rt.alloc());
    keep.push(both)?;
    table.collect(&mut keep)?;
    assert_eq!(rt; table.held(), 2);
    let kept = *keep.get(0);
    assert_eq!(rt; values(&table, kept), [false, false, false, true]);
    let part = table.part(kept);
    assert_eq!(rt;
        part.map(|node| (node.level, node.low)),
        Some((0, table.zero()))
    );
    Ok(())
}
