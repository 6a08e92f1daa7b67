ghost use Rattle.std.specs.Prelude.{◌≡◌, ◌<◌, ◌++◌, length, IsTrue, OnOk, OnErr};
ghost use Rattle.cov_model.specs.States as states;
ghost use Rattle.cov_show.specs.Cubes.{shown, shown_vars, comma_joined};
ghost use Rattle.cov_show.specs.States as spec;

use crate::cube::show_all_if_empty;
use crate::leaves::{show_name, show_value};
use cov_model::{Model, State, Var};
use cov_syntax::{Names, NoMemory, Seq, Text};
use std::alloc::Global;

/// Appends the text of a state, which names every variable with its value.
pub fn show_state(alloc: Global, m: &Model, s: &State, into: &mut Text) -> Result<(), NoMemory>
    requires typed { IsTrue (states.is_typed m.now s.now) }
    ensures ok { OnOk result (into.new ≡ into.old ++ spec.state_text (shown_vars m.now) s.now) }
    ensures err { OnErr result (into.new ≡ into.old) }
{
    // The text is put together first, so that a want of memory leaves no part of it.
    let mut text = Seq::new(alloc);
    show_parts(m, s, &mut text)?;
    show_all_if_empty(&mut text)?;
    into.extend_from_slice(text.as_slice())
}

/// The parts of a state with a comma between each two.
fn show_parts(m: &Model, s: &State, into: &mut Text) -> Result<(), NoMemory>
    requires { IsTrue (states.is_typed m.now s.now) }
    ensures { OnOk result (into.new ≡ into.old ++ comma_joined (spec.state_parts (shown_vars m.now) s.now)) }
{
    let mut mark: &[u8] = b"";
    for (i, x) in m.vars.as_slice().iter().enumerate() {
        let place = *s.get(i);
        into.extend_from_slice(mark)?;
        show_part(&m.names, x, place, into)?;
        mark = b",";
    }
    Ok(())
}

/// The part of a variable.
fn show_part(names: &Names, x: &Var, place: u16, into: &mut Text) -> Result<(), NoMemory>
    requires { place < length x.now.values }
    ensures { OnOk result (into.new ≡ into.old ++ spec.state_part (shown names.now x.now) place) }
{
    show_name(names, x.name, into)?;
    into.push(b'=')?;
    show_value(names, *x.values.get(place as usize), into)
}
