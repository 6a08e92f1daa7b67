use crate::reading::program;
use cov_modules::check_modules;
use cov_paths::{Scopes, Target};
use cov_stops::Stops;
use std::test::Fail;

/// `main` with two cells. The names are `main`, `a`, `cell`, `b`, `s` and `d` in their order.
const TWO_CELLS: &[u8] = b"MODULE main VAR a : cell(TRUE); b : cell(a.b);
MODULE cell(a) VAR b : {s}; DEFINE d := a;
";

const A: u32 = 1;

const B: u32 = 3;

const S: u32 = 4;

const D: u32 = 5;

/// In `main` names are those of its instances and of what these declare, but not of their formals.
#[test]
fn a_formal_is_not_reached_through_a_dot(rt: HostRuntime) -> Result<(), Fail> {
    let alloc = rt.alloc();
    let Ok(p) = program(alloc, TWO_CELLS) else {
        return Err(Fail::from("refused"));
    };
    assert_eq!(rt; check_modules(alloc, &p), Ok(()));
    let stops = Stops::of(alloc, &p)?;
    let scopes = Scopes::of(alloc, &p, stops)?;
    assert_eq!(rt; scopes.stops().len(), 3);
    assert_eq!(rt; scopes.named(&p, 0, &[B]), Some(Target::Instance(2)));
    assert_eq!(rt; scopes.named(&p, 0, &[B, B]), Some(Target::Variable(1)));
    assert_eq!(rt; scopes.named(&p, 0, &[A, D]), Some(Target::Define(1)));
    assert_eq!(rt; scopes.named(&p, 0, &[A, A]), None);
    assert_eq!(rt; scopes.named(&p, 0, &[S]), Some(Target::Symbol(S)));
    Ok(())
}

/// The formal of `a` is the DEFINE of its argument, that of `b` the variable of `a`.
#[test]
fn a_formal_stands_for_its_argument(rt: HostRuntime) -> Result<(), Fail> {
    let alloc = rt.alloc();
    let Ok(p) = program(alloc, TWO_CELLS) else {
        return Err(Fail::from("refused"));
    };
    assert_eq!(rt; check_modules(alloc, &p), Ok(()));
    let stops = Stops::of(alloc, &p)?;
    let scopes = Scopes::of(alloc, &p, stops)?;
    assert_eq!(rt; scopes.stops().len(), 3);
    assert_eq!(rt; scopes.named(&p, 1, &[A]), Some(Target::Define(0)));
    assert_eq!(rt; scopes.named(&p, 2, &[A]), Some(Target::Variable(0)));
    Ok(())
}
