//! Texts, the trees that they are, and their faults.

use cov_lex::lex;
use cov_parse::parse;
use cov_syntax::{
    Branch, Expr, FaultKind, Names, NoMemory, Node, Op1, Op2, Program, Refused, Section, Seq, Span,
    TypeTree, Value, When,
};
use std::alloc::Global;
use std::test::Fail;

fn read(alloc: Global, text: &[u8]) -> Result<Program, Refused> {
    let tokens = lex(alloc, text)?;
    parse(alloc, text, &tokens)
}

/// Writes trees as lists in parentheses, the operator first.
#[derive(Drop)]
struct Printer<'a> {
    alloc: Global,
    names: &'a Names,
    /// Whether nodes have their places.
    places: bool,
    text: Seq<u8>,
}

fn put_number(printer: &mut Printer<'_>, n: i32) -> Result<(), NoMemory> {
    let digits = format!(in printer.alloc; "{n}")?;
    printer.text.extend_from_slice(digits.as_bytes())
}

fn put_name(printer: &mut Printer<'_>, name: u32) -> Result<(), NoMemory> {
    if name < printer.names.len() {
        printer.text.extend_from_slice(printer.names.text(name))?;
    }
    Ok(())
}

fn put_place(printer: &mut Printer<'_>, place: Span) -> Result<(), NoMemory> {
    if printer.places {
        let place = format!(in printer.alloc; "@{}-{} ", place.start, place.stop)?;
        printer.text.extend_from_slice(place.as_bytes())?;
    }
    Ok(())
}

fn op1_text(op: Op1) -> &'static [u8] {
    match op {
        Op1::Not => b"! ",
        Op1::Neg => b"neg ",
        Op1::Next => b"next ",
        Op1::Ex => b"EX ",
        Op1::Ef => b"EF ",
        Op1::Eg => b"EG ",
        Op1::Ax => b"AX ",
        Op1::Af => b"AF ",
        Op1::Ag => b"AG ",
    }
}

fn op2_text(op: Op2) -> &'static [u8] {
    match op {
        Op2::And => b"& ",
        Op2::Or => b"| ",
        Op2::Xor => b"xor ",
        Op2::Implies => b"-> ",
        Op2::Iff => b"<-> ",
        Op2::Eq => b"= ",
        Op2::Ne => b"!= ",
        Op2::Lt => b"< ",
        Op2::Le => b"<= ",
        Op2::Gt => b"> ",
        Op2::Ge => b">= ",
        Op2::Add => b"+ ",
        Op2::Sub => b"- ",
        Op2::Mul => b"* ",
        Op2::Div => b"/ ",
        Op2::Mod => b"mod ",
        Op2::Union => b"union ",
        Op2::Member => b"in ",
        Op2::Au => b"AU ",
        Op2::Eu => b"EU ",
    }
}

fn put_value(printer: &mut Printer<'_>, value: Value) -> Result<(), NoMemory> {
    match value {
        Value::Bool(true) => printer.text.extend_from_slice(b"TRUE"),
        Value::Bool(false) => printer.text.extend_from_slice(b"FALSE"),
        Value::Int(i) => put_number(printer, i),
        Value::Sym(name) => put_name(printer, name),
    }
}

fn put_path(printer: &mut Printer<'_>, path: &[u32]) -> Result<(), NoMemory> {
    for (i, name) in path.iter().enumerate() {
        if i > 0 {
            printer.text.push(b'.')?;
        }
        put_name(printer, *name)?;
    }
    Ok(())
}

#[cycle(put)]
fn put_expr(printer: &mut Printer<'_>, e: &Expr) -> Result<(), NoMemory> {
    put_place(printer, e.place)?;
    match &e.node {
        Node::Lit(value) => put_value(printer, *value),
        Node::Path(path) => put_path(printer, path.as_slice()),
        Node::Var(_) | Node::Def(_) => Ok(()),
        Node::One(op, a) => {
            printer.text.push(b'(')?;
            printer.text.extend_from_slice(op1_text(*op))?;
            put_expr(printer, a.get())?;
            printer.text.push(b')')
        }
        Node::Two(op, a, b) => {
            printer.text.push(b'(')?;
            printer.text.extend_from_slice(op2_text(*op))?;
            put_expr(printer, a.get())?;
            printer.text.push(b' ')?;
            put_expr(printer, b.get())?;
            printer.text.push(b')')
        }
        Node::Range(low, high) => {
            put_number(printer, *low)?;
            printer.text.extend_from_slice(b"..")?;
            put_number(printer, *high)
        }
        Node::Set(items) => {
            printer.text.push(b'{')?;
            put_exprs(printer, items.as_slice())?;
            printer.text.push(b'}')
        }
        Node::Case(branches) => {
            printer.text.push(b'[')?;
            put_branches(printer, branches.as_slice())?;
            printer.text.push(b']')
        }
    }
}

#[cycle(put)]
fn put_exprs(printer: &mut Printer<'_>, items: &[Expr]) -> Result<(), NoMemory> {
    for e in items {
        put_expr(printer, e)?;
        printer.text.push(b',')?;
    }
    Ok(())
}

#[cycle(put)]
fn put_branches(printer: &mut Printer<'_>, branches: &[Branch]) -> Result<(), NoMemory> {
    for b in branches {
        put_expr(printer, &b.guard)?;
        printer.text.push(b':')?;
        put_expr(printer, &b.body)?;
        printer.text.push(b';')?;
    }
    Ok(())
}

fn put_type(printer: &mut Printer<'_>, kind: &TypeTree) -> Result<(), NoMemory> {
    match kind {
        TypeTree::Boolean => printer.text.extend_from_slice(b"boolean"),
        TypeTree::List(values) => {
            for value in values.as_slice() {
                put_value(printer, *value)?;
                printer.text.push(b',')?;
            }
            Ok(())
        }
        TypeTree::Between(low, high) => {
            put_number(printer, *low)?;
            printer.text.extend_from_slice(b"..")?;
            put_number(printer, *high)
        }
        TypeTree::Instance { module, given } => {
            put_name(printer, module.name)?;
            printer.text.push(b'(')?;
            put_exprs(printer, given.as_slice())?;
            printer.text.push(b')')
        }
    }
}

fn put_section(printer: &mut Printer<'_>, section: &Section) -> Result<(), NoMemory> {
    printer.text.push(b' ')?;
    match section {
        Section::Decl { name, kind, place } => {
            put_name(printer, name.name)?;
            printer.text.push(b':')?;
            put_place(printer, *place)?;
            put_type(printer, kind)
        }
        Section::Define { name, body } => {
            put_name(printer, name.name)?;
            printer.text.extend_from_slice(b":=")?;
            put_expr(printer, body)
        }
        Section::Assign { when, target, body } => {
            let at: &[u8] = match when {
                When::Now => b"now ",
                When::First => b"init ",
                When::Next => b"next ",
            };
            printer.text.extend_from_slice(at)?;
            put_expr(printer, target)?;
            printer.text.extend_from_slice(b":=")?;
            put_expr(printer, body)
        }
        Section::Cond { kind, body } => {
            let kind = format!(in printer.alloc; "{kind:?} ")?;
            printer.text.extend_from_slice(kind.as_bytes())?;
            put_expr(printer, body)
        }
    }
}

fn put_program(printer: &mut Printer<'_>, program: &Program) -> Result<(), NoMemory> {
    for module in program.modules.as_slice() {
        put_name(printer, module.name.name)?;
        printer.text.push(b'/')?;
        for formal in module.formals.as_slice() {
            put_name(printer, formal.name)?;
            printer.text.push(b',')?;
        }
        for section in module.sections.as_slice() {
            put_section(printer, section)?;
        }
        printer.text.push(b'|')?;
    }
    Ok(())
}

fn printed(alloc: Global, program: &Program, places: bool) -> Result<Seq<u8>, NoMemory> {
    let mut printer = Printer {
        alloc,
        names: &program.names,
        places,
        text: Seq::new(alloc),
    };
    put_program(&mut printer, program)?;
    Ok(printer.text)
}

/// Expressions, and their trees.
const TREES: [(&str, &str); 24] = [
    ("!a = b", "(! (= a b))"),
    ("a = !b", "(= a (! b))"),
    ("a = EX b", "(= a (EX b))"),
    ("a != !b = c", "(!= a (! (= b c)))"),
    ("a = b = c", "(= (= a b) c)"),
    ("a -> b -> c", "(-> a (-> b c))"),
    ("a <-> b <-> c", "(<-> (<-> a b) c)"),
    (
        "a <-> b -> c | d xor e & !f",
        "(-> (<-> a b) (xor (| c d) (& e (! f))))",
    ),
    ("(a -> b) -> (c)", "(-> (-> a b) c)"),
    ("a - 1", "(- a 1)"),
    ("a -1", "(- a 1)"),
    ("a-1", "a-1"),
    ("1..3", "1..3"),
    ("-1..2", "-1..2"),
    ("1 .. -2", "1..-2"),
    ("- -1", "(neg -1)"),
    ("-(1)", "(neg 1)"),
    (
        "-a.b * 2 + 7 mod 3 - x / 4",
        "(mod (+ (* (neg a.b) 2) 7) (- 3 (/ x 4)))",
    ),
    ("x in {1,2} union y", "(in x (union {1,2,} y))"),
    ("x < 1 & y >= 2", "(& (< x 1) (>= y 2))"),
    ("A[a U b] | E[c U d -> e]", "(| (AU a b) (EU c (-> d e)))"),
    ("AG a -> AF b", "(-> (AG a) (AF b))"),
    ("next(a) = next(b.c)", "(= (next a) (next b.c))"),
    (
        "case a : case TRUE : 1; esac; FALSE : {x, 2..3}; esac",
        "[a:[TRUE:1;];FALSE:{x,2..3,};]",
    ),
];

#[test]
fn texts_are_these_trees(rt: HostRuntime) -> Result<(), Fail> {
    for (expression, tree) in TREES {
        let mut text = Seq::new(rt.alloc());
        text.extend_from_slice(b"MODULE m INIT ")?;
        text.extend_from_slice(expression.as_bytes())?;
        let mut want = Seq::new(rt.alloc());
        want.extend_from_slice(b"m/ Init ")?;
        want.extend_from_slice(tree.as_bytes())?;
        want.push(b'|')?;
        let found = read(rt.alloc(), text.as_slice());
        assert!(rt; found.is_ok(), "no tree: {expression}");
        if let Ok(program) = found {
            let tree = printed(rt.alloc(), &program, false)?;
            assert!(rt;
                tree.as_slice() == want.as_slice(),
                "another tree: {expression}"
            );
        }
    }
    Ok(())
}

#[test]
fn modules_have_these_sections(rt: HostRuntime) -> Result<(), Fail> {
    for (text, want) in [
        ("MODULE main", "main/|"),
        (
            "MODULE a VAR MODULE b() ASSIGN DEFINE MODULE c(x, y)",
            "a/|b/|c/x,y,|",
        ),
        (
            "MODULE m VAR a : boolean; b : {on, -1, off}; c : -2..3; VAR d : n; e : n(); f : n(a, 1 + 2);",
            "m/ a:boolean b:on,-1,off, c:-2..3 d:n() e:n() f:n(a,(+ 1 2),)|",
        ),
        (
            "MODULE m ASSIGN init(x) := 0; next(x.y) := x; z := {0, 1}; TRANS next(x) = 1 & y; DEFINE d := a; e := b;",
            "m/ init x:=0 next x.y:=x now z:={0,1,} Trans (& (= (next x) 1) y) d:=a e:=b|",
        ),
        (
            "MODULE m INIT a INVAR b; FAIRNESS c JUSTICE d; SPEC AG e CTLSPEC EF f; -- end",
            "m/ Init a Invar b Fair c Fair d Spec (AG e) Spec (EF f)|",
        ),
    ] {
        let found = read(rt.alloc(), text.as_bytes());
        assert!(rt; found.is_ok(), "no program: {text}");
        if let Ok(program) = found {
            let tree = printed(rt.alloc(), &program, false)?;
            assert!(rt;
                tree.as_slice() == want.as_bytes(),
                "another program: {text}"
            );
        }
    }
    Ok(())
}

#[test]
fn nodes_have_their_places(rt: HostRuntime) -> Result<(), Fail> {
    for (text, want) in [
        // An outer parenthesis is not part of a node.
        (
            "MODULE m INIT ((a) | b.c)",
            "m/ Init @15-24 (| @16-17 a @21-24 b.c)|",
        ),
        (
            "MODULE m INIT a = !b",
            "m/ Init @14-20 (= @14-15 a @18-20 (! @19-20 b))|",
        ),
        (
            "MODULE m VAR x : 0 .. 2; ASSIGN next(y) := { 1, x };",
            "m/ x:@17-23 0..2 next @37-38 y:=@43-51 {@45-46 1,@48-49 x,}|",
        ),
        (
            "MODULE m SPEC E[a U -1] ",
            "m/ Spec @14-23 (EU @16-17 a @20-22 -1)|",
        ),
    ] {
        let found = read(rt.alloc(), text.as_bytes());
        assert!(rt; found.is_ok(), "no program: {text}");
        if let Ok(program) = found {
            let tree = printed(rt.alloc(), &program, true)?;
            assert!(rt; tree.as_slice() == want.as_bytes(), "other places: {text}");
        }
    }
    Ok(())
}

/// The text with a piece written so many times behind it.
fn repeated(alloc: Global, text: &[u8], piece: &[u8], times: usize) -> Result<Seq<u8>, NoMemory> {
    let mut whole = Seq::new(alloc);
    whole.extend_from_slice(text)?;
    for _ in 0..times {
        whole.extend_from_slice(piece)?;
    }
    Ok(whole)
}

/// Whether the text has this fault at this place, from 0.
fn has_fault(alloc: Global, text: &[u8], kind: FaultKind, start: u32) -> bool {
    match read(alloc, text) {
        Err(Refused::Fault(fault)) => fault.code == kind.code() && fault.place.start == start,
        _ => false,
    }
}

/// Texts, and the kinds and the starts of their faults.
const TEXT_FAULTS: [(&str, FaultKind, u32); 18] = [
    ("MODULE main VAR a boolean;", FaultKind::Syntax, 18),
    ("MODULE main FROZENVAR a : boolean;", FaultKind::LeftOut, 12),
    ("MODULE main INIT 1000001 = 1", FaultKind::RangeTooWide, 17),
    ("MODULE main INIT -1000001 = 1", FaultKind::RangeTooWide, 18),
    (
        "MODULE main VAR a : 0..99999999999999999999;",
        FaultKind::RangeTooWide,
        23,
    ),
    // At a token that goes on with nothing that fault comes first.
    ("MODULE main INIT a 1000001", FaultKind::Syntax, 19),
    ("", FaultKind::Syntax, 0),
    ("MODULE main VAR a : boolean -- end", FaultKind::Syntax, 34),
    ("MODULE main INIT a + ", FaultKind::Syntax, 21),
    ("MODULE main INIT a ; ;", FaultKind::Syntax, 21),
    ("MODULE main VAR a : boolean;;", FaultKind::Syntax, 28),
    ("MODULE main DEFINE next(x) := 1;", FaultKind::Syntax, 19),
    ("MODULE main INIT a.next", FaultKind::Syntax, 19),
    ("MODULE main INIT a = (", FaultKind::Syntax, 22),
    ("MODULE main INIT a xnor b", FaultKind::LeftOut, 19),
    ("MODULE main INIT 1..2..3", FaultKind::Syntax, 21),
    ("MODULE main INIT {}", FaultKind::Syntax, 18),
    ("MODULE main INIT case esac", FaultKind::Syntax, 22),
];

#[test]
fn texts_have_these_faults(rt: HostRuntime) -> Result<(), Fail> {
    for (text, kind, start) in TEXT_FAULTS {
        assert!(rt;
            has_fault(rt.alloc(), text.as_bytes(), kind, start),
            "another fault: {text}"
        );
    }
    let alloc = rt.alloc();
    let brackets = repeated(alloc, b"MODULE main INIT ", b"(", 129)?;
    assert!(rt; has_fault(alloc, brackets.as_slice(), FaultKind::TooDeep, 145));
    let operators = repeated(alloc, b"MODULE main INIT ", b"!", 1001)?;
    assert!(rt; has_fault(alloc, operators.as_slice(), FaultKind::TooDeep, 1017));
    // An expression that is not at its end is at fault there, however deep it is.
    let open = repeated(alloc, b"MODULE main INIT ", b"(", 128)?;
    assert!(rt; has_fault(alloc, open.as_slice(), FaultKind::Syntax, 145));
    let argument = repeated(alloc, b"MODULE main VAR a : m(", b"(", 129)?;
    assert!(rt; has_fault(alloc, argument.as_slice(), FaultKind::TooDeep, 150));
    let chain = repeated(alloc, b"MODULE main INIT a", b"&a", 1001)?;
    assert!(rt; has_fault(alloc, chain.as_slice(), FaultKind::TooDeep, 2018));
    Ok(())
}
