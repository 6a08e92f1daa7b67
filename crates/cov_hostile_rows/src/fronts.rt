//! Each front of the text of a model.

use crate::runs::{End, end_of_check};
use cov_syntax::Seq;
use std::test::Fail;

/// Three modules.
const CELLS: &[u8] = b"MODULE main
VAR mode : {idle, work, rest};
    a : cell(mode = work);
    b : cell(a.out);
ASSIGN init(mode) := idle;
  next(mode) := case mode = idle : work; mode = work : rest; 1 : idle; esac;
SPEC AG (a.out -> AX b.out)
MODULE cell(d)
VAR out : boolean;
ASSIGN init(out) := 0; next(out) := d;
";

#[test]
fn each_front_of_a_model_is_judged_or_refused(rt: HostRuntime) -> Result<(), Fail> {
    let alloc = rt.alloc();
    let mut front = Seq::new(alloc);
    for byte in CELLS {
        let end = end_of_check(alloc, front.as_slice())?;
        let judged = !end.nothing && (end.status == 0 || end.status == 1);
        assert!(rt; judged || end == REFUSED);
        front.push(*byte)?;
    }
    let end = end_of_check(alloc, front.as_slice())?;
    assert_eq!(rt; end.status, 0);
    assert!(rt; !end.nothing);
    Ok(())
}

const REFUSED: End = End {
    status: 3,
    nothing: true,
};
