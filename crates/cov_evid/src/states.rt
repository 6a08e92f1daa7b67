ghost use Rattle.std.specs.Prelude.{◌≡◌, ◌≢◌, ◌↔◌, ◌+◌, ◌<◌, ◌≤◌, ◌++◌, [], ◌∷◌, codes, length, IfOk, IfErr, IsTrue, OnOk, Ok, Some};
ghost use Rattle.cov_model.specs.declared.model.Model.{Model as AModel};
ghost use Rattle.cov_model.specs.States.{is_typed};
ghost use Rattle.cov_model.specs.WellFormed.{IsWellFormed};
ghost use Rattle.cov_evid.specs.Cursors.{AreAdded, AreSole, IsSole, IsListed, IsRefusal, IsShortLasso, IsTaken, fault_in, fault_past, piece};
ghost use Rattle.cov_evid.specs.FirstFault as spec;
ghost use Rattle.cov_evid.specs.Spelling.{are_typed, as_text, ending_line, lasso_lines, most_states, state_lines};
ghost use Rattle.cov_show.specs.Cubes.{shown_vars};
ghost use Rattle.cov_show.specs.States.{state_text};

use crate::ending::Ending;
use crate::fault::{EvidFault, EvidFaultKind, EvidRefused};
use crate::front::behind;
use crate::lines::Lines;
use cov_model::{Lasso, Model, State};
use cov_show::{StateFault, StateFaultKind, StateRefused, read_state};
use cov_syntax::Seq;
use std::alloc::Global;

/// The most states of stem and turn together.
const MOST_STATES: usize = 100_000;

/// Reads the line of the state of a claim.
pub(crate) fn read_at(alloc: Global, m: &Model, lines: &mut Lines<'_>) -> Result<State, EvidRefused>
    requires { IsWellFormed m.now }
    ensures ok { IfOk result (λ s. IsTrue (is_typed m.now s) × IsTaken lines.old ((codes "at " ++ state_text (shown_vars m.now) s) ∷ []) lines.new) }
    ensures sole { IfOk result (IsSole m.now) }
    ensures on { IfOk result (λ s. fault_in m.now spec.for_state lines.old ≡ fault_in m.now spec.for_stem lines.new) }
    ensures fault { IfErr result (IsRefusal (fault_in m.now spec.for_state lines.old)) }
{
    let number = lines.number();
    match behind(b"at ", lines.next()?) {
        Some(text) => state_in(alloc, m, text, number),
        None => Err(EvidRefused::Fault(EvidFaultKind::Line.at(number))),
    }
}

/// Reads the lines of a lasso.
pub(crate) fn read_lasso(
    alloc: Global,
    m: &Model,
    lines: &mut Lines<'_>,
) -> Result<Lasso, EvidRefused>
    requires { IsWellFormed m.now }
    ensures ok { IfOk result (λ l. IsShortLasso m.now l × IsTaken lines.old (lasso_lines m.now l) lines.new) }
    ensures on { IfOk result (λ l. fault_in m.now spec.for_stem lines.old ≡ fault_in m.now spec.for_nothing lines.new) }
    ensures fault { IfErr result (IsRefusal (fault_in m.now spec.for_stem lines.old)) }
{
    read_stem(lines)?;
    let mut stem = Seq::new(alloc);
    read_states(alloc, m, lines, Ending::Turn, 0, &mut stem)?;
    let before = stem.len();
    let mut turn = Seq::new(alloc);
    turn.push(read_listed(alloc, m, lines, before)?)?;
    read_states(alloc, m, lines, Ending::End, before, &mut turn)?;
    Ok(Lasso { stem, turn })
}

/// Reads the line before the states.
fn read_stem(lines: &mut Lines<'_>) -> Result<(), EvidFault>
    ensures ok { OnOk result (IsTaken lines.old (codes "stem" ∷ []) lines.new) }
    ensures on { (m : AModel) → OnOk result (fault_in m spec.for_stem lines.old ≡ fault_in m (spec.for_listed Ending.Turn 0) lines.new) }
    ensures fault { (m : AModel) → IfErr result (λ f. fault_in m spec.for_stem lines.old ≡ Some f) }
{
    let number = lines.number();
    if lines.next()? == b"stem".as_slice() {
        Ok(())
    } else {
        Err(EvidFaultKind::Line.at(number))
    }
}

/// Reads states up to the line that ends them, behind so many others and those that were read.
fn read_states(
    alloc: Global,
    m: &Model,
    lines: &mut Lines<'_>,
    ending: Ending,
    before: usize,
    states: &mut Seq<State>,
) -> Result<(), EvidRefused>
    requires formed { IsWellFormed m.now }
    requires typed { IsTrue (are_typed m.now states.old) }
    requires sole { AreSole m.now states.old }
    requires room { before + length states.old ≤ most_states }
    ensures ok { OnOk result (AreAdded m.now before states.old states.new) }
    ensures text { OnOk result (as_text (state_lines m.now states.old) ++ lines.old.rest ≡ as_text (state_lines m.now states.new ++ ending_line ending ∷ []) ++ lines.new.rest) }
    ensures on { OnOk result (fault_in m.now (spec.for_listed ending (before + length states.old)) lines.old ≡ fault_in m.now (spec.past_ending ending (before + length states.new)) lines.new) }
    ensures fault { IfErr result (IsRefusal (fault_in m.now (spec.for_listed ending (before + length states.old)) lines.old)) }
{
    while lines.piece() != ending.line() {
        let state = read_listed(alloc, m, lines, before + states.len())?;
        states.push(state)?;
    }
    lines.next()?;
    Ok(())
}

/// Reads a state of a list, behind so many others.
fn read_listed(
    alloc: Global,
    m: &Model,
    lines: &mut Lines<'_>,
    count: usize,
) -> Result<State, EvidRefused>
    requires { IsWellFormed m.now }
    ensures ok { IfOk result (λ s. IsTrue (is_typed m.now s) × (count < most_states) × IsTaken lines.old (state_text (shown_vars m.now) s ∷ []) lines.new) }
    ensures sole { IfOk result (IsSole m.now) }
    ensures on { (from to : spec.Place) → IsListed m.now from count to (piece lines.old.rest) → IfOk result (λ s. fault_in m.now from lines.old ≡ fault_in m.now to lines.new) }
    ensures fault { (from to : spec.Place) → IsListed m.now from count to (piece lines.old.rest) → IfErr result (IsRefusal (fault_in m.now from lines.old)) }
{
    let number = lines.number();
    if is_one_too_many(lines, count) {
        return Err(EvidRefused::Fault(EvidFaultKind::TooLong.at(number)));
    }
    let line = lines.next()?;
    state_in(alloc, m, line, number)
}

/// Whether the next line or piece of a line would be one state too many.
fn is_one_too_many(lines: &Lines<'_>, count: usize) -> bool
    ensures { IsTrue result ↔ ((most_states ≤ count) × (lines.now.rest ≢ [])) }
{
    count >= MOST_STATES && !lines.is_empty()
}

/// The state that a text in a line is.
fn state_in(alloc: Global, m: &Model, text: &[u8], number: u32) -> Result<State, EvidRefused>
    requires { IsWellFormed m.now }
    ensures ok { IfOk result (λ s. IsTrue (is_typed m.now s) × (text.now ≡ state_text (shown_vars m.now) s)) }
    ensures sole { IfOk result (IsSole m.now) }
    ensures on { (place : spec.Place) → IfOk result (λ s. spec.past_state m.now text.now place ≡ Ok place) }
    ensures fault { (place : spec.Place) → IfErr result (IsRefusal (fault_past (spec.past_state m.now text.now place) number)) }
{
    match read_state(alloc, m, text) {
        Ok(state) => Ok(state),
        Err(StateRefused::Fault(fault)) => {
            Err(EvidRefused::Fault(of_state_fault(fault).at(number)))
        }
        Err(StateRefused::Memory) => Err(EvidRefused::Memory),
    }
}

/// What is wrong with a line that should be a state.
fn of_state_fault(fault: StateFault) -> EvidFaultKind
    ensures { result ≡ spec.of_state_fault fault }
{
    if fault.code == StateFaultKind::Value.code() {
        EvidFaultKind::BadValue
    } else {
        EvidFaultKind::Line
    }
}
