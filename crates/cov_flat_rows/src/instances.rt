use crate::reading::program;
use cov_modules::check_modules;
use cov_stops::Stops;
use std::test::Fail;

/// `main` with two cells, of which each has a leaf with a variable beside its own one.
const TWO_CELLS: &[u8] = b"MODULE main VAR a : cell(TRUE); b : cell(a.b);
MODULE cell(a) VAR b : boolean; leaf : leaf;
MODULE leaf VAR a : boolean;
";

/// The walk is `main`, `a`, `a.leaf`, `b`, `b.leaf`.
#[test]
fn an_instance_stands_right_before_those_below_it(rt: HostRuntime) -> Result<(), Fail> {
    let alloc = rt.alloc();
    let Ok(p) = program(alloc, TWO_CELLS) else {
        return Err(Fail::from("refused"));
    };
    assert_eq!(rt; check_modules(alloc, &p), Ok(()));
    let stops = Stops::of(alloc, &p)?;
    assert_eq!(rt; stops.len(), 5);
    let leaf = stops.entry(2);
    assert_eq!(rt; (leaf.module, leaf.caller, leaf.section), (2, 1, 1));
    assert_eq!(rt; (leaf.first_var, leaf.first_define), (1, 1));
    let second = stops.entry(3);
    assert_eq!(rt; (second.module, second.caller, second.section), (1, 0, 1));
    assert_eq!(rt; (second.first_var, second.first_define), (2, 1));
    Ok(())
}
