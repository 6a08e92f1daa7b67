use crate::reading::model_of;
use cov_evid::{EvidFault, EvidFaultKind, EvidRefused, read_evidence, write_evidence};
use cov_syntax::{NoMemory, Seq, Text};
use std::alloc::Global;
use std::test::Fail;

const MODEL: &[u8] = b"MODULE main VAR ack : boolean;";

/// The first fault of a text, if there is one.
fn fault_of(alloc: Global, text: &[u8]) -> Option<EvidFault> {
    let Ok(m) = model_of(alloc, MODEL) else {
        return None;
    };
    match read_evidence(alloc, &m, text) {
        Err(EvidRefused::Fault(fault)) => Some(fault),
        _ => None,
    }
}

/// Evidence of the mutant at `ack=TRUE`, up to its last state.
const MUTANT: &str = "covsmv evidence 1\nspec 1\nsignal ack\nat ack=TRUE\nstem\nturn\n";

fn text_of(alloc: Global, parts: &[&str]) -> Result<Text, NoMemory> {
    let mut text = Seq::new(alloc);
    for part in parts {
        text.extend_from_slice(part.as_bytes())?;
    }
    Ok(text)
}

/// Whether these texts together are read, and written again as they are.
fn is_read_again(alloc: Global, parts: &[&str]) -> Result<bool, NoMemory> {
    let text = text_of(alloc, parts)?;
    let Ok(m) = model_of(alloc, MODEL) else {
        return Ok(false);
    };
    match read_evidence(alloc, &m, text.as_slice()) {
        Ok(e) => {
            let mut written = Seq::new(alloc);
            write_evidence(alloc, &m, &e, &mut written)?;
            Ok(written.as_slice() == text.as_slice())
        }
        Err(_) => Ok(false),
    }
}

/// The fault of these texts together.
fn fault(alloc: Global, parts: &[&str]) -> Result<Option<EvidFault>, NoMemory> {
    let text = text_of(alloc, parts)?;
    Ok(fault_of(alloc, text.as_slice()))
}

#[test]
fn evidence_is_written_as_it_is_read(rt: HostRuntime) -> Result<(), Fail> {
    let alloc = rt.alloc();
    assert!(rt; is_read_again(alloc, &[MUTANT, "ack=TRUE\nend\n"])?);
    let occurrence = "spec 2\noccurrence 999999999\nstem\nack=FALSE\nack=TRUE\nturn\n";
    assert!(rt; is_read_again(alloc, &[HEAD, occurrence, "ack=TRUE\nack=FALSE\nend\n"])?);
    Ok(())
}

const HEAD: &str = "covsmv evidence 1\n";

/// Texts in two parts, with their first faults and the lines of these.
const FAULTS: [(&str, &str, EvidFaultKind, u32); 12] = [
    (MUTANT, "ack=TRUE\n", EvidFaultKind::Cut, 8),
    (MUTANT, "ack=TRUE\nend", EvidFaultKind::Cut, 8),
    (MUTANT, "ack = TRUE\nend\n", EvidFaultKind::Line, 7),
    (MUTANT, "ack=1\nend\n", EvidFaultKind::BadValue, 7),
    (MUTANT, "end\n", EvidFaultKind::Line, 7),
    (MUTANT, "ack=TRUE\nend\n\n", EvidFaultKind::Trailing, 9),
    ("", "covsmv evidence 2\n", EvidFaultKind::Header, 1),
    ("", "covsmv evidence 1", EvidFaultKind::Cut, 1),
    (HEAD, "spec 01\n", EvidFaultKind::Line, 2),
    (HEAD, "spec 1000000000\n", EvidFaultKind::Line, 2),
    (HEAD, "spec 1\nsignal q\n", EvidFaultKind::UnknownName, 3),
    (HEAD, "spec 1\noccurrence 0\n", EvidFaultKind::Line, 3),
];

#[test]
fn the_first_fault_is_told(rt: HostRuntime) -> Result<(), Fail> {
    let alloc = rt.alloc();
    for (head, rest, kind, line) in FAULTS {
        let told = fault(alloc, &[head, rest])?;
        assert_eq!(rt; told, Some(kind.at(line)), "at {rest}");
    }
    Ok(())
}

/// The line of a state, so many times.
fn states(alloc: Global, count: usize) -> Result<Text, NoMemory> {
    let mut text = Seq::new(alloc);
    for _ in 0..count {
        text.extend_from_slice(b"ack=TRUE\n")?;
    }
    Ok(text)
}

/// Evidence with a hundred thousand states in its turn, and a last piece.
fn long_turn(alloc: Global, last: &str) -> Result<Text, NoMemory> {
    let block = states(alloc, 1_000)?;
    let mut text = text_of(alloc, &[MUTANT])?;
    for _ in 0..100 {
        text.extend_from_slice(block.as_slice())?;
    }
    text.extend_from_slice(last.as_bytes())?;
    Ok(text)
}

/// The fault of evidence with a hundred thousand states in its turn, and a last piece.
fn long_fault(alloc: Global, last: &str) -> Result<Option<EvidFault>, NoMemory> {
    let text = long_turn(alloc, last)?;
    Ok(fault_of(alloc, text.as_slice()))
}

#[test]
fn there_are_not_too_many_states(rt: HostRuntime) -> Result<(), Fail> {
    let alloc = rt.alloc();
    assert_eq!(rt; long_fault(alloc, "end\n")?, None);
    assert_eq!(rt;
        long_fault(alloc, "?")?,
        Some(EvidFaultKind::TooLong.at(100_007))
    );
    assert_eq!(rt;
        long_fault(alloc, "end")?,
        Some(EvidFaultKind::Cut.at(100_007))
    );
    Ok(())
}

/// Evidence of the mutant at `ack=TRUE`, whole.
const WHOLE: &[u8] =
    b"covsmv evidence 1\nspec 1\nsignal ack\nat ack=TRUE\nstem\nturn\nack=TRUE\nend\n";

#[test]
fn every_front_is_cut_at_its_last_line(rt: HostRuntime) -> Result<(), Fail> {
    let alloc = rt.alloc();
    let mut front = Seq::new(alloc);
    let mut line = 1u32;
    for byte in WHOLE {
        let told = fault_of(alloc, front.as_slice());
        assert_eq!(rt; told, Some(EvidFaultKind::Cut.at(line)));
        front.push(*byte)?;
        if *byte == b'\n' {
            line = line.wrapping_add(1);
        }
    }
    assert_eq!(rt; fault_of(alloc, front.as_slice()), None);
    Ok(())
}

/// The place of a byte, what is put there, and the first fault with its line.
const CHANGES: [(usize, u8, EvidFaultKind, u32); 24] = [
    (0, b'C', EvidFaultKind::Header, 1),
    (16, b'2', EvidFaultKind::Header, 1),
    (17, b' ', EvidFaultKind::Header, 1),
    (18, b'S', EvidFaultKind::Line, 2),
    (23, b'0', EvidFaultKind::Line, 2),
    (23, b'x', EvidFaultKind::Line, 2),
    (24, b' ', EvidFaultKind::Line, 2),
    (25, b'S', EvidFaultKind::Line, 3),
    (31, b'_', EvidFaultKind::Line, 3),
    (32, b'A', EvidFaultKind::UnknownName, 3),
    (36, b'A', EvidFaultKind::Line, 4),
    (39, b'b', EvidFaultKind::Line, 4),
    (42, b' ', EvidFaultKind::Line, 4),
    (43, b't', EvidFaultKind::BadValue, 4),
    (48, b'S', EvidFaultKind::Line, 5),
    (53, b'T', EvidFaultKind::Line, 6),
    (57, b'x', EvidFaultKind::Line, 6),
    (58, b'b', EvidFaultKind::Line, 7),
    (61, b'-', EvidFaultKind::Line, 7),
    (62, b'F', EvidFaultKind::BadValue, 7),
    (65, b'e', EvidFaultKind::BadValue, 7),
    (66, b',', EvidFaultKind::Line, 7),
    (67, b'E', EvidFaultKind::Line, 8),
    (70, b' ', EvidFaultKind::Cut, 8),
];

/// The whole text with another byte at a place.
fn changed(alloc: Global, place: usize, byte: u8) -> Result<Text, NoMemory> {
    let mut text = Seq::new(alloc);
    for old in WHOLE {
        let here = text.len() == place;
        text.push(if here { byte } else { *old })?;
    }
    Ok(text)
}

#[test]
fn one_byte_is_another(rt: HostRuntime) -> Result<(), Fail> {
    let alloc = rt.alloc();
    for (place, byte, kind, line) in CHANGES {
        let text = changed(alloc, place, byte)?;
        assert_eq!(rt;
            fault_of(alloc, text.as_slice()),
            Some(kind.at(line)),
            "at {place}"
        );
    }
    Ok(())
}
