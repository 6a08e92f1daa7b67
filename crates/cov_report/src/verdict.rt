ghost use Rattle.std.specs.Prelude.{◌≡◌, ◌++◌, length, take, OnOk, OnErr};
ghost use Rattle.cov_report.specs.Verdicts as spec;

use cov_replay::Verdict;
use cov_syntax::{NoMemory, Text};
use itoa::Buffer;

/// Appends the line of a verdict on evidence.
pub fn verdict_line(v: &Verdict, into: &mut Text) -> Result<(), NoMemory>
    ensures ok { OnOk result (into.new ≡ into.old ++ spec.verdict_line v.now) }
    ensures err { OnErr result (into.new ≡ into.old) }
{
    let before = into.len();
    let put = put_verdict(*v, into);
    if put.is_err() {
        into.cut(before);
    }
    put
}

fn put_verdict(v: Verdict, into: &mut Text) -> Result<(), NoMemory>
    ensures ok { OnOk result (into.new ≡ into.old ++ spec.verdict_line v) }
    ensures err { OnErr result (take (length into.old) into.new ≡ into.old) }
{
    match v {
        Verdict::Accept => into.extend_from_slice(b"accepted\n"),
        Verdict::NoSuchSpec => put_rejected(b"NoSuchSpec", into),
        Verdict::NoSuchOccurrence => put_rejected(b"NoSuchOccurrence", into),
        Verdict::NotLinear => put_rejected(b"NotLinear", into),
        Verdict::NotState(i) => put_rejected_at(b"NotState", i, into),
        Verdict::NotInitial => put_rejected(b"NotInitial", into),
        Verdict::BadStep(i) => put_rejected_at(b"BadStep", i, into),
        Verdict::NotClosed => put_rejected(b"NotClosed", into),
        Verdict::Unfair(k) => put_rejected_at(b"Unfair", k, into),
        Verdict::NotAt => put_rejected(b"NotAt", into),
        Verdict::NotRefuted => put_rejected(b"NotRefuted", into),
    }
}

/// The line of a part that fails.
fn put_rejected(name: &[u8], into: &mut Text) -> Result<(), NoMemory>
    ensures ok { OnOk result (into.new ≡ into.old ++ spec.rejected name.now) }
    ensures err { OnErr result (take (length into.old) into.new ≡ into.old) }
{
    into.extend_from_slice(b"rejected: ")?;
    into.extend_from_slice(name)?;
    into.push(b'\n')
}

/// The line of a part that fails at a number.
fn put_rejected_at(name: &[u8], n: u32, into: &mut Text) -> Result<(), NoMemory>
    ensures ok { OnOk result (into.new ≡ into.old ++ spec.rejected_at name.now n) }
    ensures err { OnErr result (take (length into.old) into.new ≡ into.old) }
{
    into.extend_from_slice(b"rejected: ")?;
    into.extend_from_slice(name)?;
    into.push(b' ')?;
    into.extend_from_slice(Buffer::new().format(n).as_bytes())?;
    into.push(b'\n')
}
