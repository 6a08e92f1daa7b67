use cov_lex::lex;
use cov_syntax::{Mark, ModelFault, Refused, Span, Token, TokenKind, Word};
use std::alloc::Global;
use std::test::Fail;

fn token(kind: TokenKind, start: u32, stop: u32) -> Token {
    Token {
        kind,
        span: Span { start, stop },
    }
}

fn name(start: u32, stop: u32) -> Token {
    token(TokenKind::Name, start, stop)
}

fn number(start: u32, stop: u32) -> Token {
    token(TokenKind::Number, start, stop)
}

fn word(word: Word, start: u32, stop: u32) -> Token {
    token(TokenKind::Word(word.number()), start, stop)
}

fn mark(mark: Mark, start: u32, stop: u32) -> Token {
    token(TokenKind::Mark(mark.number()), start, stop)
}

fn reads_as(alloc: Global, text: &[u8], tokens: &[Token]) -> bool {
    match lex(alloc, text) {
        Ok(found) => found.as_slice() == tokens,
        Err(_) => false,
    }
}

fn fault(alloc: Global, text: &[u8]) -> Option<ModelFault> {
    match lex(alloc, text) {
        Err(Refused::Fault(fault)) => Some(fault),
        _ => None,
    }
}

fn fault_at(code: u8, start: u32, stop: u32) -> Option<ModelFault> {
    Some(ModelFault {
        code,
        place: Span { start, stop },
    })
}

#[test]
fn the_longest_token_is_taken(rt: HostRuntime) {
    let alloc = rt.alloc();
    let arrow = [name(0, 1), mark(Mark::Implies, 1, 3), name(3, 4)];
    assert!(rt; reads_as(alloc, b"a->b", &arrow));
    assert!(rt; reads_as(alloc, b"a-->b\nc", &[name(0, 1), name(6, 7)]));
    assert!(rt; reads_as(alloc, b"a--b", &[name(0, 1)]));
    assert!(rt; reads_as(alloc, b"a-b", &[name(0, 3)]));
    assert!(rt; reads_as(alloc, b"a-5", &[name(0, 3)]));
    assert!(rt; reads_as(alloc, b"-5", &[mark(Mark::Minus, 0, 1), number(1, 2)]));
    let range = [number(0, 1), mark(Mark::Dots, 1, 3), number(3, 4)];
    assert!(rt; reads_as(alloc, b"0..2", &range));
    let path = [number(0, 1), mark(Mark::Dot, 1, 2), number(2, 3)];
    assert!(rt; reads_as(alloc, b"0.5", &path));
    let becomes = [mark(Mark::Becomes, 0, 2), mark(Mark::Colon, 2, 3)];
    assert!(rt; reads_as(alloc, b":=:", &becomes));
    let arrows = [
        mark(Mark::Iff, 0, 3),
        mark(Mark::Less, 3, 4),
        mark(Mark::Implies, 5, 7),
        mark(Mark::Minus, 7, 8),
    ];
    assert!(rt; reads_as(alloc, b"<->< ->-", &arrows));
    let compared = [
        mark(Mark::LessEqual, 0, 2),
        mark(Mark::NotEqual, 2, 4),
        mark(Mark::GreaterEqual, 4, 6),
        mark(Mark::Equal, 6, 7),
    ];
    assert!(rt; reads_as(alloc, b"<=!=>==", &compared));
}

#[test]
fn a_reserved_word_is_a_whole_name(rt: HostRuntime) {
    let alloc = rt.alloc();
    let names = [name(0, 5), name(6, 11), name(12, 15)];
    assert!(rt; reads_as(alloc, b"caseX AGfoo EX1", &names));
    let paths = [
        word(Word::A, 0, 1),
        word(Word::E, 2, 3),
        word(Word::U, 4, 5),
    ];
    assert!(rt; reads_as(alloc, b"A E U", &paths));
    let module = [word(Word::Module, 0, 6), name(8, 12)];
    assert!(rt; reads_as(alloc, b"MODULE\r\nmain\r\n", &module));
    let left_out = [word(Word::FrozenVar, 0, 9), word(Word::Itself, 10, 14)];
    assert!(rt; reads_as(alloc, b"FROZENVAR self", &left_out));
    assert!(rt; reads_as(alloc, b"_a$#1 1a", &[name(0, 5), number(6, 7), name(7, 8)]));
    assert!(rt; reads_as(alloc, b"x--\xff\x00?", &[name(0, 1)]));
    assert!(rt; reads_as(alloc, b"", &[]));
}

#[test]
fn a_fault_is_the_first_bad_byte(rt: HostRuntime) -> Result<(), Fail> {
    let alloc = rt.alloc();
    assert_eq!(rt; fault(alloc, b"MODULE main ?"), fault_at(1, 12, 13));
    assert_eq!(rt; fault(alloc, b"a\xc3\xa9 ?"), fault_at(1, 1, 2));
    assert_eq!(rt; fault(alloc, b"--?\n a $b"), fault_at(1, 7, 8));
    let mut blanks = vec![in alloc; b' '; 1_048_576]?;
    assert!(rt; reads_as(alloc, blanks.as_slice(), &[]));
    blanks.push(b' ')?;
    assert_eq!(rt; fault(alloc, blanks.as_slice()), fault_at(24, 0, 0));
    Ok(())
}
