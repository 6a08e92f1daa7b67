ghost use Rattle.std.specs.Prelude.{◌≡◌, ◌++◌, length, replicate, take, OnOk, OnErr};
ghost use Rattle.cov_report.specs.Lines.{line};

use cov_syntax::{NoMemory, Text};

/// So many spaces.
pub(crate) fn put_spaces(count: u32, into: &mut Text) -> Result<(), NoMemory>
    ensures ok { OnOk result (into.new ≡ into.old ++ replicate count 32) }
    ensures err { OnErr result (take (length into.old) into.new ≡ into.old) }
{
    for _ in 0..count {
        into.push(b' ')?;
    }
    Ok(())
}

/// A line, so many spaces deep.
pub(crate) fn put_line(indent: u32, text: &[u8], into: &mut Text) -> Result<(), NoMemory>
    ensures ok { OnOk result (into.new ≡ into.old ++ line indent text.now) }
    ensures err { OnErr result (take (length into.old) into.new ≡ into.old) }
{
    put_spaces(indent, into)?;
    into.extend_from_slice(text)?;
    into.push(b'\n')
}
