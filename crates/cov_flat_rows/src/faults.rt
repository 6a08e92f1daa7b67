use crate::reading::flat_model;
use cov_modules::check_modules;
use cov_syntax::{FaultKind, Names, NoMemory, Program, Refused, Seq, Span};
use std::alloc::Global;
use std::test::Fail;

/// The code of a text's fault, and where it begins.
fn fault_of(alloc: Global, text: &[u8]) -> Option<(u8, u32)> {
    match flat_model(alloc, text) {
        Err(Refused::Fault(fault)) => Some((fault.code, fault.place.start)),
        Err(Refused::Memory) => None,
        Ok(_) => None,
    }
}

/// Texts, the faults that they have, and where these begin.
const FAULTS: [(&str, FaultKind, u32); 13] = [
    ("MODULE m", FaultKind::NoMain, 0),
    ("MODULE main VAR a : m;", FaultKind::UnknownModule, 20),
    ("MODULE main VAR a : main;", FaultKind::RecursiveModule, 20),
    (
        "MODULE main VAR a : m; MODULE m VAR b : n; MODULE n VAR c : m;",
        FaultKind::RecursiveModule,
        40,
    ),
    (
        "MODULE main VAR a : m; MODULE m(p)",
        FaultKind::WrongArguments,
        20,
    ),
    (
        "MODULE main VAR a : boolean; a : boolean;",
        FaultKind::DuplicateName,
        29,
    ),
    ("MODULE main INIT z", FaultKind::UnknownName, 17),
    ("MODULE main VAR a : {a, b};", FaultKind::NameClash, 16),
    (
        "MODULE main VAR a : boolean; ASSIGN a := 0; init(a) := 0;",
        FaultKind::DoubleAssign,
        49,
    ),
    (
        "MODULE main DEFINE a := 1; ASSIGN a := 0;",
        FaultKind::UnknownName,
        34,
    ),
    ("MODULE main ASSIGN z := y;", FaultKind::UnknownName, 19),
    (
        "MODULE main VAR a : m(z); MODULE m(p)",
        FaultKind::UnknownName,
        22,
    ),
    (
        "MODULE main VAR c : boolean; a : m(c); b : m(c); MODULE m(p) ASSIGN next(p) := 0;",
        FaultKind::DoubleAssign,
        73,
    ),
];

#[test]
fn each_fault_has_its_kind_and_its_place(rt: HostRuntime) {
    for (text, kind, start) in FAULTS {
        assert_eq!(rt;
            fault_of(rt.alloc(), text.as_bytes()),
            Some((kind.code(), start))
        );
    }
}

/// A module with two instances of another.
fn put_twice(alloc: Global, name: &str, below: u32, text: &mut Seq<u8>) -> Result<(), NoMemory> {
    let entry = format!(in alloc; "MODULE {name} VAR a : m{below}; b : m{below}; ")?;
    text.extend_from_slice(entry.as_bytes())
}

/// Modules `m0` to `m30`, of which each but the last has two instances of the next, and a `main` with two of one of them.
fn doubling(alloc: Global, first: u32) -> Result<Seq<u8>, NoMemory> {
    let mut text = Seq::new(alloc);
    put_twice(alloc, "main", first, &mut text)?;
    for i in 0..30u32 {
        let name = format!(in alloc; "m{i}")?;
        put_twice(alloc, &name, i + 1, &mut text)?;
    }
    text.extend_from_slice(b"MODULE m30")?;
    Ok(text)
}

/// Below `m0` the tree has more than a thousand million instances.
#[test]
fn doubling_instances_are_refused_at_once(rt: HostRuntime) -> Result<(), Fail> {
    let text = doubling(rt.alloc(), 0)?;
    assert_eq!(rt;
        fault_of(rt.alloc(), text.as_slice()),
        Some((FaultKind::TooLarge.code(), 0))
    );
    Ok(())
}

/// Eleven levels have 4,094 instances, twelve have 8,190.
#[test]
fn instances_are_counted_up_to_the_limit(rt: HostRuntime) -> Result<(), Fail> {
    let eleven = doubling(rt.alloc(), 20)?;
    assert!(rt; flat_model(rt.alloc(), eleven.as_slice()).is_ok());
    let twelve = doubling(rt.alloc(), 19)?;
    assert_eq!(rt;
        fault_of(rt.alloc(), twelve.as_slice()),
        Some((FaultKind::TooLarge.code(), 0))
    );
    Ok(())
}

#[test]
fn a_program_without_modules_has_no_main(rt: HostRuntime) -> Result<(), Fail> {
    let alloc = rt.alloc();
    let p = Program {
        names: Names::new(alloc),
        modules: Seq::new(alloc),
    };
    let fault = FaultKind::NoMain.at(Span { start: 0, stop: 0 });
    assert_eq!(rt; check_modules(alloc, &p), Err(Refused::Fault(fault)));
    Ok(())
}
