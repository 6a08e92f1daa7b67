ghost use Rattle.std.specs.Prelude.{◌≡◌, ◌⊎◌, ◌+◌, ◌<◌, ◌≤◌, ◌^◌, [], length, map, Some, None, Ok, Err, IsTrue, IfOk, IfSome, MatchOption, MatchResult, All};
ghost use Rattle.cov_model.specs.States as states;
ghost use Rattle.cov_model.specs.Values.{item};
ghost use Rattle.cov_model.specs.WellFormed.{IsWellFormed};
ghost use Rattle.cov_show.specs.Cubes.{value_text, shown, shown_vars};
ghost use Rattle.cov_show.specs.States as spec;
ghost use Rattle.cov_show.specs.declared.state_fault.StateRefused.TheVariants.{Memory};

use crate::leaves::{is_value_text, name_text};
use crate::state_fault::{StateFault, StateFaultKind, StateRefused};
use cov_model::{Model, State, Var};
use cov_syntax::{Names, Seq, Value};
use std::alloc::Global;

/// The place of a value that a text tells of a variable, and how many bytes tell it.
#[derive(Clone, Copy)]
struct Part {
    place: u16,
    len: usize,
}

/// The state that has this text. A fault is the first one.
pub fn read_state(alloc: Global, m: &Model, text: &[u8]) -> Result<State, StateRefused>
    requires formed { IsWellFormed m.now }
    ensures ok { IfOk result (λ s. IsTrue (states.is_typed m.now s) × (text.now ≡ spec.state_text (shown_vars m.now) s)) }
    ensures only { (s : states.State) → IsTrue (states.is_typed m.now s) → text.now ≡ spec.state_text (shown_vars m.now) s → (result ≡ Ok s) ⊎ (result ≡ Err Memory) }
    ensures fault { MatchResult result (λ s. spec.state_fault (shown_vars m.now) text.now ≡ None) (spec.IsRefusal (spec.state_fault (shown_vars m.now) text.now)) }
{
    // The names are distinct, as their length tells.
    let _names = m.names.len();
    read_values(alloc, &m.names, m.vars.as_slice(), text)
}

/// The places of the values of these variables that a text tells.
pub fn read_values(
    alloc: Global,
    names: &Names,
    vars: &[Var],
    text: &[u8],
) -> Result<State, StateRefused>
    requires few { All (λ x. length x.values < 2 ^ 16) vars.now }
    ensures small { IfOk result (λ s. IsTrue (spec.are_small vars.now s)) }
    ensures told { MatchResult result (λ s. spec.told (map (shown names.now) vars.now) text.now ≡ Ok s) (spec.IsRefusal (spec.fault_of (spec.told (map (shown names.now) vars.now) text.now))) }
{
    if vars.len() == 0 {
        return read_all(alloc, text);
    }
    read_parts(alloc, names, vars, text)
}

/// The state without variables, whose text is a word.
fn read_all(alloc: Global, text: &[u8]) -> Result<State, StateRefused>
    ensures { MatchResult result (λ s. spec.told_all text.now ≡ Ok s) (spec.IsRefusal (spec.fault_of (spec.told_all text.now))) }
{
    if text == b"all".as_slice() {
        Ok(Seq::new(alloc))
    } else {
        Err(StateRefused::Fault(StateFaultKind::Expected.at(0)))
    }
}

/// The values of these variables, and nothing behind them.
fn read_parts(
    alloc: Global,
    names: &Names,
    vars: &[Var],
    text: &[u8],
) -> Result<State, StateRefused>
    requires few { All (λ x. length x.values < 2 ^ 16) vars.now }
    ensures small { IfOk result (λ s. IsTrue (spec.are_small vars.now s)) }
    ensures told { MatchResult result (λ s. spec.told_parts (map (shown names.now) vars.now) [] 0 text.now ≡ Ok s) (spec.IsRefusal (spec.fault_of (spec.told_parts (map (shown names.now) vars.now) [] 0 text.now))) }
{
    let mut state = Seq::new(alloc);
    let mut mark: &[u8] = b"";
    let mut at = 0;
    for x in vars {
        let part = read_part(names, x, mark, at, &text[at..])?;
        state.push(part.place)?;
        at += part.len;
        mark = b",";
    }
    if at < text.len() {
        return Err(StateRefused::Fault(StateFaultKind::Trailing.at(at)));
    }
    Ok(state)
}

/// The part of a variable at the front of a text that begins at a byte of the whole.
fn read_part(
    names: &Names,
    x: &Var,
    mark: &[u8],
    at: usize,
    text: &[u8],
) -> Result<Part, StateFault>
    requires few { length x.now.values < 2 ^ 16 }
    requires within { at + length text.now < 2 ^ 64 }
    ensures told { result ≡ spec.told_part (shown names.now x.now) mark.now at text.now }
    ensures within { IfOk result (λ p. p.len ≤ length text.now) }
    ensures small { IfOk result (λ p. IsTrue (spec.is_small_value (item x.now.values p.place))) }
{
    match behind_head(mark, name_text(names, x.name), text) {
        Some(rest) => read_value(
            names,
            x.values.as_slice(),
            at,
            text.len() - rest.len(),
            rest,
        ),
        None => Err(StateFaultKind::Expected.at(at)),
    }
}

/// The part of a variable, of which so many bytes stand before its value.
fn read_value(
    names: &Names,
    values: &[Value],
    at: usize,
    head: usize,
    text: &[u8],
) -> Result<Part, StateFault>
    requires few { length values.now < 2 ^ 16 }
    requires within { at + head + length text.now < 2 ^ 64 }
    ensures told { result ≡ spec.told_behind (map (value_text names.now) values.now) at head (Some text.now) }
    ensures within { IfOk result (λ p. p.len ≤ head + length text.now) }
    ensures small { IfOk result (λ p. IsTrue (spec.is_small_value (item values.now p.place))) }
{
    let word = word(text);
    match place_of(names, values, word) {
        Some(place) => Ok(Part {
            place: place as u16,
            len: head + word.len(),
        }),
        None => Err(StateFaultKind::Value.at(at + head)),
    }
}

/// What stands behind the mark, the name and `=`.
fn behind_head<'a>(mark: &[u8], name: &[u8], text: &'a [u8]) -> Option<&'a [u8]>
    ensures found { MatchOption result (spec.behind (spec.head mark.now name.now) text.now ≡ None) (λ z. spec.behind (spec.head mark.now name.now) text.now ≡ Some z.now) }
    ensures len { IfSome result (λ z. length (spec.head mark.now name.now) + length z.now ≡ length text.now) }
{
    let named = behind(mark, text)?;
    let valued = behind(name, named)?;
    behind(b"=", valued)
}

/// What stands behind these bytes, if the text begins with them.
fn behind<'a>(head: &[u8], text: &'a [u8]) -> Option<&'a [u8]>
    ensures found { MatchOption result (spec.behind head.now text.now ≡ None) (λ z. spec.behind head.now text.now ≡ Some z.now) }
    ensures len { IfSome result (λ z. length head.now + length z.now ≡ length text.now) }
{
    text.strip_prefix(head)
}

/// The bytes up to the next `,` or the end.
fn word(text: &[u8]) -> &[u8]
    ensures value { result.now ≡ spec.word text.now }
    ensures within { length result.now ≤ length text.now }
{
    &text[..word_len(text)]
}

fn word_len(text: &[u8]) -> usize
    ensures value { result ≡ length (spec.word text.now) }
    ensures within { result ≤ length text.now }
{
    text.iter().take_while(|b| **b != b',').count()
}

/// The place of the first value with this text.
fn place_of(names: &Names, values: &[Value], word: &[u8]) -> Option<usize>
    ensures place { result ≡ spec.place_of (map (value_text names.now) values.now) word.now }
    ensures small { IfSome result (λ i. IsTrue (spec.is_small_value (item values.now i))) }
{
    for (i, v) in values.iter().enumerate() {
        if is_value_text(names, *v, word) {
            return Some(i);
        }
    }
    None
}
