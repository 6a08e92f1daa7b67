ghost use Rattle.std.specs.Prelude.{◌≡◌, ◌++◌, ◌+◌, IsTrue, OnOk, OnErr};
ghost use Rattle.cov_show.specs.Cubes.{counts, cube_text, is_cube, shown_vars};
ghost use Rattle.cov_report.specs.Lines as spec;

use crate::line::{put_line, put_spaces};
use cov_model::{Cube, CubeList, Model};
use cov_show::show_cube;
use cov_syntax::{NoMemory, Seq, Text};
use std::alloc::Global;

/// Appends a set under its title: its first cubes, two spaces deeper, and a line that says whether there are others.
pub fn set_lines(
    alloc: Global,
    m: &Model,
    title: &[u8],
    list: &CubeList,
    indent: u8,
    into: &mut Text,
) -> Result<(), NoMemory>
    requires { IsTrue (spec.are_cubes (counts m.now.vars) list.now.cubes) }
    ensures ok { OnOk result (into.new ≡ into.old ++ spec.set_lines indent title.now (shown_vars m.now) list.now) }
    ensures err { OnErr result (into.new ≡ into.old) }
{
    // The lines are put together first, so that a want of memory leaves no part of them.
    let mut text = Seq::new(alloc);
    let indent = u32::from(indent);
    put_line(indent, title, &mut text)?;
    put_list(alloc, m, list, indent + 2, &mut text)?;
    into.extend_from_slice(text.as_slice())
}

/// The lines of a list of cubes.
fn put_list(
    alloc: Global,
    m: &Model,
    list: &CubeList,
    indent: u32,
    into: &mut Text,
) -> Result<(), NoMemory>
    requires { IsTrue (spec.are_cubes (counts m.now.vars) list.now.cubes) }
    ensures { OnOk result (into.new ≡ into.old ++ spec.list_lines indent (shown_vars m.now) list.now.cubes list.now.more) }
{
    if list.more {
        put_cubes(alloc, m, &list.cubes, indent, into)?;
        return put_line(indent, b"more", into);
    }
    if list.cubes.len() == 0 {
        return put_line(indent, b"none", into);
    }
    put_cubes(alloc, m, &list.cubes, indent, into)
}

/// A line for each cube.
fn put_cubes(
    alloc: Global,
    m: &Model,
    cubes: &Seq<Cube>,
    indent: u32,
    into: &mut Text,
) -> Result<(), NoMemory>
    requires { IsTrue (spec.are_cubes (counts m.now.vars) cubes.now) }
    ensures { OnOk result (into.new ≡ into.old ++ spec.cube_lines indent (shown_vars m.now) cubes.now) }
{
    for c in cubes.as_slice() {
        put_cube(alloc, m, c, indent, into)?;
    }
    Ok(())
}

/// The line of a cube.
fn put_cube(
    alloc: Global,
    m: &Model,
    c: &Cube,
    indent: u32,
    into: &mut Text,
) -> Result<(), NoMemory>
    requires { IsTrue (is_cube (counts m.now.vars) c.now) }
    ensures { OnOk result (into.new ≡ into.old ++ spec.line indent (cube_text (shown_vars m.now) c.now)) }
{
    put_spaces(indent, into)?;
    show_cube(alloc, m, c, into)?;
    into.push(b'\n')
}
