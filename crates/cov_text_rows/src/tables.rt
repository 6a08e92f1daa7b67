use cov_syntax::{
    Branch, Expr, FaultKind, Mark, Names, NoMemory, Node, Op1, Seq, Span, Value, Word,
};
use sqlite_items::Boxed;
use std::alloc::Global;
use std::test::Fail;

#[test]
fn tables_have_the_numbers_of_the_format(rt: HostRuntime) {
    for (number, spelling) in [
        (0, "MODULE"),
        (9, "SPEC"),
        (19, "xor"),
        (28, "A"),
        (30, "U"),
        (100, "IVAR"),
        (118, "ABG"),
    ] {
        assert_eq!(rt;
            Word::from_number(number).map(|w| w.spelling()),
            Some(spelling)
        );
    }
    assert!(rt; Word::from_number(31).is_none() && Word::from_number(99).is_none());
    for (number, spelling) in [(0, "("), (10, ".."), (17, ">="), (25, "->"), (26, "<->")] {
        assert_eq!(rt;
            Mark::from_number(number).map(|m| m.spelling()),
            Some(spelling)
        );
    }
    assert!(rt; Word::Ivar.is_left_out() && !Word::U.is_left_out());
    assert_eq!(rt; FaultKind::FileTooLong.code(), 24);
}

#[test]
fn a_name_is_held_once(rt: HostRuntime) -> Result<(), Fail> {
    let mut names = Names::new(rt.alloc());
    let mut places = Seq::new(rt.alloc());
    for text in [b"b".as_slice(), b"", b"ab", b"b", b"ab"] {
        assert!(rt; names.len() < 9);
        places.push(names.add(text)?)?;
    }
    assert_eq!(rt; places.as_slice(), [0, 1, 2, 0, 2].as_slice());
    assert_eq!(rt; names.len(), 3);
    assert_eq!(rt; names.text(2), b"ab".as_slice());
    assert_eq!(rt; names.find(b"a"), None);
    Ok(())
}

fn leaf(node: Node) -> Expr {
    Expr {
        node,
        place: Span { start: 0, stop: 1 },
    }
}

/// `case !x : 0..2; TRUE : {x}; esac`
fn tree(alloc: Global) -> Result<Expr, NoMemory> {
    let mut path = Seq::new(alloc);
    path.extend_from_slice(&[7])?;
    let mut set = Seq::new(alloc);
    set.push(leaf(Node::Path(path.copy(alloc)?)))?;
    let negated = Boxed::new(alloc, leaf(Node::Path(path)))?;
    let mut branches = Seq::new(alloc);
    branches.push(Branch {
        guard: leaf(Node::One(Op1::Not, negated)),
        body: leaf(Node::Range(0, 2)),
    })?;
    branches.push(Branch {
        guard: leaf(Node::Lit(Value::Bool(true))),
        body: leaf(Node::Set(set)),
    })?;
    Ok(leaf(Node::Case(branches)))
}

#[test]
fn a_tree_is_copied(rt: HostRuntime) -> Result<(), Fail> {
    let _copy = tree(rt.alloc())?.copy(rt.alloc())?;
    Ok(())
}
