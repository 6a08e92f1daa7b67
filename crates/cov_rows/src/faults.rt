//! Each fault of a model, with its place.

use crate::runs::{Given, expect};
use std::test::Fail;

/// Sixty-one Boolean variables, one to a line from the second line on.
const SIXTY_ONE: &str = "MODULE main VAR
v00 : boolean;
v01 : boolean;
v02 : boolean;
v03 : boolean;
v04 : boolean;
v05 : boolean;
v06 : boolean;
v07 : boolean;
v08 : boolean;
v09 : boolean;
v10 : boolean;
v11 : boolean;
v12 : boolean;
v13 : boolean;
v14 : boolean;
v15 : boolean;
v16 : boolean;
v17 : boolean;
v18 : boolean;
v19 : boolean;
v20 : boolean;
v21 : boolean;
v22 : boolean;
v23 : boolean;
v24 : boolean;
v25 : boolean;
v26 : boolean;
v27 : boolean;
v28 : boolean;
v29 : boolean;
v30 : boolean;
v31 : boolean;
v32 : boolean;
v33 : boolean;
v34 : boolean;
v35 : boolean;
v36 : boolean;
v37 : boolean;
v38 : boolean;
v39 : boolean;
v40 : boolean;
v41 : boolean;
v42 : boolean;
v43 : boolean;
v44 : boolean;
v45 : boolean;
v46 : boolean;
v47 : boolean;
v48 : boolean;
v49 : boolean;
v50 : boolean;
v51 : boolean;
v52 : boolean;
v53 : boolean;
v54 : boolean;
v55 : boolean;
v56 : boolean;
v57 : boolean;
v58 : boolean;
v59 : boolean;
v60 : boolean;";

/// Texts with a fault of the grammar or of their modules, and their error lines.
const MODULE_FAULTS: [(&str, &str); 12] = [
    ("MODULE main ?", "model: BadByte at 1:13\n"),
    ("MODULE main VAR a boolean;", "model: Syntax at 1:19\n"),
    ("MODULE m", "model: NoMain at 1:1\n"),
    ("MODULE main VAR a : m;", "model: UnknownModule at 1:21\n"),
    (
        "MODULE main VAR a : main;",
        "model: RecursiveModule at 1:21\n",
    ),
    (
        "MODULE main VAR a : m; MODULE m(p)",
        "model: WrongArguments at 1:21\n",
    ),
    (
        "MODULE main VAR a : boolean; a : boolean;",
        "model: DuplicateName at 1:30\n",
    ),
    ("MODULE main INIT z", "model: UnknownName at 1:18\n"),
    ("MODULE main VAR a : {a, b};", "model: NameClash at 1:17\n"),
    (
        "MODULE main VAR a : boolean; ASSIGN a := 0; init(a) := 0;",
        "model: DoubleAssign at 1:50\n",
    ),
    (
        "MODULE main FROZENVAR a : boolean;",
        "model: LeftOut at 1:13 FROZENVAR\n",
    ),
    (
        "MODULE main INIT (((((((((((((((((((((((((((((((((((((((((((((((((((((((((((((((((((((((((((((((((((((((((((((((((((((((((((((((((((((((((((((((((",
        "model: TooDeep at 1:146\n",
    ),
];

#[test]
fn faults_of_the_text_and_of_modules(rt: HostRuntime) -> Result<(), Fail> {
    for (model, line) in MODULE_FAULTS {
        expect(
            &rt,
            rt.alloc(),
            Given::of(&["check", "M"], model),
            3,
            "",
            line,
        )?;
    }
    Ok(())
}

/// Models with a fault of their kinds, and their error lines.
const KIND_FAULTS: [(&str, &str); 10] = [
    ("MODULE main VAR a : 3..1;", "model: BadType at 1:21\n"),
    ("MODULE main VAR x : 0..2; INIT x", "model: Kind at 1:32\n"),
    (
        "MODULE main VAR a : boolean; INIT {a}",
        "model: SetPlace at 1:35\n",
    ),
    (
        "MODULE main VAR a : boolean; INIT case a : a; esac",
        "model: CaseNotClosed at 1:35\n",
    ),
    (
        "MODULE main VAR x : 0..2; INIT 1 / x = 1",
        "model: DivisorMayBeZero at 1:36\n",
    ),
    (
        "MODULE main VAR x : 0..1024;",
        "model: RangeTooWide at 1:21\n",
    ),
    (
        "MODULE main INIT 1000001 = 1",
        "model: RangeTooWide at 1:18\n",
    ),
    (
        "MODULE main DEFINE a := b; b := a;",
        "model: Circular at 1:20\n",
    ),
    (
        "MODULE main VAR a : boolean; INIT next(a)",
        "model: NextPlace at 1:35\n",
    ),
    (
        "MODULE main VAR a : boolean; FAIRNESS AF a",
        "model: TemporalPlace at 1:39\n",
    ),
];

#[test]
fn faults_of_kinds(rt: HostRuntime) -> Result<(), Fail> {
    for (model, line) in KIND_FAULTS {
        expect(
            &rt,
            rt.alloc(),
            Given::of(&["check", "M"], model),
            3,
            "",
            line,
        )?;
    }
    Ok(())
}

#[test]
fn too_many_bits(rt: HostRuntime) -> Result<(), Fail> {
    let line = "model: TooManyBits at 62:1\n";
    expect(
        &rt,
        rt.alloc(),
        Given::of(&["check", "M"], SIXTY_ONE),
        3,
        "",
        line,
    )
}
