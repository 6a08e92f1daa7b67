ghost use Rattle.std.specs.Prelude.{◌≡◌, [], ◌∷◌, ◌++◌, length, map, codes, slice_index_or, IsTrue, OnOk, OnErr};
ghost use Rattle.cov_show.specs.Cubes as spec;

use crate::leaves::{show_name, show_value};
use cov_model::{Cube, Model, Var};
use cov_syntax::{Names, NoMemory, Seq, Text, Value};
use std::alloc::Global;

/// Appends the text of a cube, which names the variables whose class is not their whole list.
pub fn show_cube(alloc: Global, m: &Model, c: &Cube, into: &mut Text) -> Result<(), NoMemory>
    requires { IsTrue (spec.is_cube (spec.counts m.now.vars) c.now) }
    ensures ok { OnOk result (into.new ≡ into.old ++ spec.cube_text (spec.shown_vars m.now) c.now) }
    ensures err { OnErr result (into.new ≡ into.old) }
{
    // The text is put together first, so that a want of memory leaves no part of it.
    let mut text = Seq::new(alloc);
    show_parts(m, c, &mut text)?;
    show_all_if_empty(&mut text)?;
    into.extend_from_slice(text.as_slice())
}

/// The word for a cube without parts.
pub fn show_all_if_empty(text: &mut Text) -> Result<(), NoMemory>
    ensures { OnOk result (text.new ≡ spec.or_word text.old) }
{
    if text.len() == 0 {
        return text.extend_from_slice(b"all");
    }
    Ok(())
}

/// The parts of a cube with a comma between each two.
fn show_parts(m: &Model, c: &Cube, into: &mut Text) -> Result<(), NoMemory>
    requires { IsTrue (spec.is_cube (spec.counts m.now.vars) c.now) }
    ensures { OnOk result (into.new ≡ into.old ++ spec.comma_joined (spec.parts (spec.shown_vars m.now) c.now)) }
{
    let mut mark: &[u8] = b"";
    for (i, x) in m.vars.as_slice().iter().enumerate() {
        let class = c.get(i).as_slice();
        if class.len() < x.values.len() {
            into.extend_from_slice(mark)?;
            show_part(&m.names, x, class, into)?;
            mark = b",";
        }
    }
    Ok(())
}

/// The part of a variable.
fn show_part(names: &Names, x: &Var, class: &[u16], into: &mut Text) -> Result<(), NoMemory>
    requires { IsTrue (spec.is_class (length x.now.values) class.now) }
    ensures { OnOk result (into.new ≡ into.old ++ (slice_index_or names.now x.now.name [] ++ codes "=" ++ spec.class_text (map (spec.value_text names.now) x.now.values) class.now)) }
{
    show_name(names, x.name, into)?;
    into.push(b'=')?;
    show_class(names, x.values.as_slice(), class, into)
}

/// A class of values: the one value, or all of them in braces.
fn show_class(
    names: &Names,
    values: &[Value],
    class: &[u16],
    into: &mut Text,
) -> Result<(), NoMemory>
    requires { IsTrue (spec.is_class (length values.now) class.now) }
    ensures { OnOk result (into.new ≡ into.old ++ spec.class_text (map (spec.value_text names.now) values.now) class.now) }
{
    if class.len() == 1 {
        return show_values(names, values, class, into);
    }
    into.push(b'{')?;
    show_values(names, values, class, into)?;
    into.push(b'}')
}

/// Values with a comma between each two.
fn show_values(
    names: &Names,
    values: &[Value],
    class: &[u16],
    into: &mut Text,
) -> Result<(), NoMemory>
    requires { IsTrue (spec.is_class (length values.now) class.now) }
    ensures { OnOk result (into.new ≡ into.old ++ spec.comma_joined (map (λ i. slice_index_or (map (spec.value_text names.now) values.now) i []) class.now)) }
{
    let mut mark: &[u8] = b"";
    for i in class {
        into.extend_from_slice(mark)?;
        show_value(names, values[*i as usize], into)?;
        mark = b",";
    }
    Ok(())
}
