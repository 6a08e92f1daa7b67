use crate::reading::{mutant, verdict_on};
use cov_evid::Claim;
use cov_replay::Verdict;
use std::test::Fail;

const FALSE: u16 = 0;

const TRUE: u16 = 1;

/// A model whose variable is FALSE and TRUE in turn.
const TURNS: &[u8] = b"MODULE main
VAR q : boolean;
ASSIGN init(q) := FALSE; next(q) := !q;
SPEC AG (!q -> AX q)
";

#[test]
fn a_lasso_closes(rt: HostRuntime) -> Result<(), Fail> {
    let alloc = rt.alloc();
    let verdict = verdict_on(alloc, TURNS, 1, mutant(alloc, TRUE)?, &[], &[FALSE, TRUE])?;
    assert_eq!(rt; verdict, Some(Verdict::Accept));
    let verdict = verdict_on(alloc, TURNS, 1, mutant(alloc, TRUE)?, &[], &[FALSE, FALSE])?;
    assert_eq!(rt; verdict, Some(Verdict::BadStep(1)));
    let verdict = verdict_on(alloc, TURNS, 1, mutant(alloc, TRUE)?, &[], &[FALSE])?;
    assert_eq!(rt; verdict, Some(Verdict::NotClosed));
    let verdict = verdict_on(alloc, TURNS, 1, mutant(alloc, TRUE)?, &[], &[TRUE, FALSE])?;
    assert_eq!(rt; verdict, Some(Verdict::NotInitial));
    let verdict = verdict_on(alloc, TURNS, 2, mutant(alloc, TRUE)?, &[], &[FALSE, TRUE])?;
    assert_eq!(rt; verdict, Some(Verdict::NoSuchSpec));
    Ok(())
}

/// A free variable that is TRUE again and again.
const AGAIN: &[u8] = b"MODULE main
VAR ack : boolean;
FAIRNESS ack
SPEC AG AF ack
";

#[test]
fn the_turn_meets_fairness_and_the_mutant(rt: HostRuntime) -> Result<(), Fail> {
    let alloc = rt.alloc();
    let verdict = verdict_on(alloc, AGAIN, 1, mutant(alloc, TRUE)?, &[], &[TRUE])?;
    assert_eq!(rt; verdict, Some(Verdict::Accept));
    let verdict = verdict_on(alloc, AGAIN, 1, mutant(alloc, FALSE)?, &[], &[TRUE])?;
    assert_eq!(rt; verdict, Some(Verdict::NotAt));
    let verdict = verdict_on(alloc, AGAIN, 1, mutant(alloc, TRUE)?, &[TRUE], &[FALSE])?;
    assert_eq!(rt; verdict, Some(Verdict::Unfair(1)));
    let verdict = verdict_on(alloc, AGAIN, 1, mutant(alloc, TRUE)?, &[FALSE], &[TRUE])?;
    assert_eq!(rt; verdict, Some(Verdict::Accept));
    Ok(())
}

/// Requests that never come.
const REQUESTS: &[u8] = b"MODULE main
VAR req : boolean; ack : boolean;
ASSIGN req := 0;
SPEC AG (req -> AF ack)
";

#[test]
fn occurrences_are_claimed(rt: HostRuntime) -> Result<(), Fail> {
    let alloc = rt.alloc();
    let verdict = verdict_on(alloc, REQUESTS, 1, Claim::Occurrence(3), &[], &[FALSE])?;
    assert_eq!(rt; verdict, Some(Verdict::Accept));
    let verdict = verdict_on(alloc, REQUESTS, 1, Claim::Occurrence(4), &[], &[FALSE])?;
    assert_eq!(rt; verdict, Some(Verdict::NotRefuted));
    let verdict = verdict_on(alloc, REQUESTS, 1, Claim::Occurrence(6), &[], &[FALSE])?;
    assert_eq!(rt; verdict, Some(Verdict::NoSuchOccurrence));
    let verdict = verdict_on(alloc, REQUESTS, 1, Claim::Occurrence(3), &[TRUE], &[FALSE])?;
    assert_eq!(rt; verdict, Some(Verdict::NotState(1)));
    Ok(())
}
