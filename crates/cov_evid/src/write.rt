ghost use Rattle.std.specs.Prelude.{◌≡◌, ◌++◌, [], ◌∷◌, codes, decimal, flat_map, slice_index_or, IsTrue, OnOk, OnErr};
ghost use Rattle.cov_model.specs.States.{is_typed};
ghost use Rattle.cov_show.specs.Cubes.{shown_vars};
ghost use Rattle.cov_show.specs.States.{state_text};
ghost use Rattle.cov_evid.specs.Spelling.{IsProper, IsProperClaim, are_typed, as_text, claim_lines, lasso_lines, signal_text, spelled};

use crate::ending::Ending;
use cov_claims::{Claim, Evidence};
use cov_model::{Lasso, Model, Signal, State};
use cov_show::show_state;
use cov_syntax::{Names, NoMemory, Seq, Text};
use cov_types::Checked;
use itoa::Buffer;
use std::alloc::Global;

/// Appends the text of evidence that speaks of a model.
pub fn write_evidence(
    alloc: Global,
    m: &Checked,
    e: &Evidence,
    into: &mut Text,
) -> Result<(), NoMemory>
    requires { IsProper m.now e.now }
    ensures ok { OnOk result (into.new ≡ into.old ++ spelled m.now e.now) }
    ensures err { OnErr result (into.new ≡ into.old) }
{
    // The text is put together first, so that a want of memory leaves no part of it.
    let mut text = Seq::new(alloc);
    put_line(b"covsmv evidence 1", b"", &mut text)?;
    put_number(b"spec ", e.spec, &mut text)?;
    put_claim(alloc, m.model(), &e.claim, &mut text)?;
    put_lasso(alloc, m.model(), &e.lasso, &mut text)?;
    into.extend_from_slice(text.as_slice())
}

/// The lines of a claim.
fn put_claim(alloc: Global, m: &Model, c: &Claim, into: &mut Text) -> Result<(), NoMemory>
    requires { IsProperClaim m.now c.now }
    ensures { OnOk result (into.new ≡ into.old ++ as_text (claim_lines m.now c.now)) }
{
    match c {
        Claim::Mutant { signal, at } => {
            put_line(b"signal ", flat_name(m, *signal), into)?;
            put_state(alloc, m, b"at ", at, into)
        }
        Claim::Occurrence(n) => put_number(b"occurrence ", *n, into),
    }
}

/// The lines of a lasso.
fn put_lasso(alloc: Global, m: &Model, l: &Lasso, into: &mut Text) -> Result<(), NoMemory>
    requires stem { IsTrue (are_typed m.now l.now.stem) }
    requires turn { IsTrue (are_typed m.now l.now.turn) }
    ensures { OnOk result (into.new ≡ into.old ++ as_text (lasso_lines m.now l.now)) }
{
    put_line(b"stem", b"", into)?;
    put_states(alloc, m, &l.stem, into)?;
    put_line(Ending::Turn.line(), b"", into)?;
    put_states(alloc, m, &l.turn, into)?;
    put_line(Ending::End.line(), b"", into)
}

/// A line for each state.
fn put_states(
    alloc: Global,
    m: &Model,
    states: &Seq<State>,
    into: &mut Text,
) -> Result<(), NoMemory>
    requires { IsTrue (are_typed m.now states.now) }
    ensures { OnOk result (into.new ≡ into.old ++ flat_map (λ s. state_text (shown_vars m.now) s ++ codes "\n") states.now) }
{
    for s in states.as_slice() {
        put_state(alloc, m, b"", s, into)?;
    }
    Ok(())
}

/// The line of a state behind a front.
fn put_state(
    alloc: Global,
    m: &Model,
    front: &[u8],
    s: &State,
    into: &mut Text,
) -> Result<(), NoMemory>
    requires { IsTrue (is_typed m.now s.now) }
    ensures { OnOk result (into.new ≡ into.old ++ (front.now ++ state_text (shown_vars m.now) s.now ++ codes "\n")) }
{
    into.extend_from_slice(front)?;
    show_state(alloc, m, s, into)?;
    into.push(b'\n')
}

/// The line of a number behind a front.
fn put_number(front: &[u8], n: u32, into: &mut Text) -> Result<(), NoMemory>
    ensures { OnOk result (into.new ≡ into.old ++ (front.now ++ decimal n ++ codes "\n")) }
{
    put_line(front, Buffer::new().format(n).as_bytes(), into)
}

/// The line of a text behind a front.
fn put_line(front: &[u8], text: &[u8], into: &mut Text) -> Result<(), NoMemory>
    ensures { OnOk result (into.new ≡ into.old ++ (front.now ++ text.now ++ codes "\n")) }
{
    into.extend_from_slice(front)?;
    into.extend_from_slice(text)?;
    into.push(b'\n')
}

/// The flat name of a signal, and nothing where there is no such variable or DEFINE.
fn flat_name(m: &Model, q: Signal) -> &[u8]
    ensures { result.now ≡ signal_text m.now q }
{
    match q {
        Signal::Var(i) => match m.vars.as_slice().get(i as usize) {
            Some(x) => name_text(&m.names, x.name),
            None => b"",
        },
        Signal::Def(i) => match m.defines.as_slice().get(i as usize) {
            Some(d) => name_text(&m.names, d.name),
            None => b"",
        },
    }
}

/// The name with this number, or nothing where there is none.
fn name_text(names: &Names, i: u32) -> &[u8]
    ensures { result.now ≡ slice_index_or names.now i [] }
{
    if i < names.len() { names.text(i) } else { b"" }
}
