ghost use Rattle.std.specs.Prelude.{◌≡◌, ◌++◌, decimal, length, take, OnOk, OnErr};
ghost use Rattle.cov_report.specs.SpecLines as spec;

use crate::line::{put_line, put_spaces};
use crate::note::Note;
use cov_ctl::Formula;
use cov_model::Model;
use cov_show::show_formula;
use cov_syntax::{NoMemory, Seq, Text};
use itoa::Buffer;
use std::alloc::Global;

/// Appends the line of a specification, which has its number and its formula.
pub fn spec_line(
    alloc: Global,
    m: &Model,
    n: u32,
    passes: bool,
    f: &Formula,
    into: &mut Text,
) -> Result<(), NoMemory>
    ensures ok { OnOk result (into.new ≡ into.old ++ spec.spec_line m.now n passes f.now) }
    ensures err { OnErr result (into.new ≡ into.old) }
{
    // The line is put together first, so that a want of memory leaves no part of it.
    let mut text = Seq::new(alloc);
    text.extend_from_slice(b"spec ")?;
    put_number(n, &mut text)?;
    text.extend_from_slice(verdict(passes))?;
    show_formula(alloc, m, f, &mut text)?;
    text.push(b'\n')?;
    into.extend_from_slice(text.as_slice())
}

/// Appends the line of an occurrence of a subformula, which has its number in the specification and the subformula.
pub fn occurrence_line(
    alloc: Global,
    m: &Model,
    n: u32,
    vacuous: bool,
    f: &Formula,
    into: &mut Text,
) -> Result<(), NoMemory>
    ensures ok { OnOk result (into.new ≡ into.old ++ spec.occurrence_line m.now n vacuous f.now) }
    ensures err { OnErr result (into.new ≡ into.old) }
{
    let mut text = Seq::new(alloc);
    put_spaces(2, &mut text)?;
    text.extend_from_slice(b"occurrence ")?;
    put_number(n, &mut text)?;
    text.extend_from_slice(use_of(vacuous))?;
    show_formula(alloc, m, f, &mut text)?;
    text.push(b'\n')?;
    into.extend_from_slice(text.as_slice())
}

/// Appends the line above the sets of a signal, which has its name.
pub fn signal_line(name: &[u8], into: &mut Text) -> Result<(), NoMemory>
    ensures ok { OnOk result (into.new ≡ into.old ++ spec.signal_line name.now) }
    ensures err { OnErr result (into.new ≡ into.old) }
{
    let before = into.len();
    let put = put_signal(name, into);
    if put.is_err() {
        into.cut(before);
    }
    put
}

/// Appends a note, so many spaces deep.
pub fn note_line(note: Note, indent: u8, into: &mut Text) -> Result<(), NoMemory>
    ensures ok { OnOk result (into.new ≡ into.old ++ spec.note_line note indent) }
    ensures err { OnErr result (into.new ≡ into.old) }
{
    let before = into.len();
    let put = put_line(u32::from(indent), note.text(), into);
    if put.is_err() {
        into.cut(before);
    }
    put
}

fn put_signal(name: &[u8], into: &mut Text) -> Result<(), NoMemory>
    ensures ok { OnOk result (into.new ≡ into.old ++ spec.signal_line name.now) }
    ensures err { OnErr result (take (length into.old) into.new ≡ into.old) }
{
    put_spaces(2, into)?;
    into.extend_from_slice(b"signal ")?;
    into.extend_from_slice(name)?;
    into.push(b'\n')
}

fn put_number(n: u32, into: &mut Text) -> Result<(), NoMemory>
    ensures { OnOk result (into.new ≡ into.old ++ decimal n) }
{
    into.extend_from_slice(Buffer::new().format(n).as_bytes())
}

fn verdict(passes: bool) -> &'static [u8]
    ensures { result.now ≡ spec.verdict passes }
{
    if passes { b" passes: " } else { b" fails: " }
}

fn use_of(vacuous: bool) -> &'static [u8]
    ensures { result.now ≡ spec.use_of vacuous }
{
    if vacuous {
        b" vacuous: "
    } else {
        b" matters: "
    }
}
