use crate::runs::{Given, expect};
use std::test::Fail;

/// A request, and an acknowledgement that never has to come, since no request stays.
const REQUEST: &str =
    "MODULE main VAR req : boolean; ack : boolean; ASSIGN req := 0; SPEC AG (req -> AF ack)";

const REQUEST_REPORT: &str = "spec 1 passes: AG (req -> AF ack)
  occurrence 1 matters: AG (req -> AF ack)
  occurrence 2 matters: req -> AF ack
  occurrence 3 matters: req
  occurrence 4 vacuous: AF ack
  occurrence 5 vacuous: ack
";

/// A `<->` over a CTL operator is written out before its parts are numbered.
const WRITTEN_OUT: &str =
    "MODULE main VAR q : boolean; ASSIGN init(q) := FALSE; next(q) := !q; SPEC AG (q <-> AX !q)";

const WRITTEN_OUT_REPORT: &str = "spec 1 passes: AG (q & AX !q | !q & !AX !q)
  occurrence 1 matters: AG (q & AX !q | !q & !AX !q)
  occurrence 2 matters: q & AX !q | !q & !AX !q
  occurrence 3 matters: q & AX !q
  occurrence 4 matters: q
  occurrence 5 matters: AX !q
  occurrence 6 matters: !q
  occurrence 7 matters: q
  occurrence 8 matters: !q & !AX !q
  occurrence 9 matters: !q
  occurrence 10 matters: q
  occurrence 11 matters: !AX !q
  occurrence 12 matters: AX !q
  occurrence 13 matters: !q
  occurrence 14 matters: q
";

/// Without a fair path everything passes, and every part is vacuous.
const UNFAIR: &str = "MODULE main VAR ack : boolean; FAIRNESS FALSE SPEC AG ack";

const UNFAIR_REPORT: &str = "no fair initial state
spec 1 passes: AG ack
  occurrence 1 vacuous: AG ack
  occurrence 2 vacuous: ack
";

const FAILING: &str =
    "MODULE main VAR q : boolean; ASSIGN init(q) := FALSE; next(q) := !q; SPEC AG q SPEC EX q";

const FAILING_REPORT: &str = "spec 1 fails: AG q
  fails, not measured
spec 2 passes: EX q
  occurrence 1 matters: EX q
  occurrence 2 matters: q
";

#[test]
fn vacuous_parts(rt: HostRuntime) -> Result<(), Fail> {
    for (model, status, report) in [
        (REQUEST, 0, REQUEST_REPORT),
        (WRITTEN_OUT, 0, WRITTEN_OUT_REPORT),
        (UNFAIR, 0, UNFAIR_REPORT),
        (FAILING, 1, FAILING_REPORT),
        ("MODULE main VAR q : boolean;", 0, "no specifications\n"),
    ] {
        expect(
            &rt,
            rt.alloc(),
            Given::of(&["vacuity", "M"], model),
            status,
            report,
            "",
        )?;
    }
    Ok(())
}
