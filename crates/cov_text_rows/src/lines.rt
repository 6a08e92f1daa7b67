ghost use Rattle.std.specs.Prelude.{◌≡◌, [], ◌∷◌, length, IfOk, IsTrue};
ghost use Rattle.cov_show.specs.Cubes.{counts, is_cube};

use cov_ctl::Formula;
use cov_model::{Cube, CubeList, Model, Var};
use cov_report::{
    Note, no_fair_line, no_specs_line, note_line, occurrence_line, set_lines, signal_line,
    spec_line,
};
use cov_syntax::{Expr, Names, NoMemory, Node, Seq, Span, Text, Value};
use sqlite_items::Boxed;
use std::alloc::Global;
use std::test::Fail;

fn values(alloc: Global, items: &[Value]) -> Result<Seq<Value>, NoMemory>
    ensures { IfOk result (λ s. s ≡ items.now) }
{
    let mut values = Seq::new(alloc);
    values.extend_from_slice(items)?;
    Ok(values)
}

fn variable(alloc: Global, name: u32, items: &[Value]) -> Result<Var, NoMemory>
    ensures { IfOk result (λ x. x.values ≡ items.now) }
{
    let nowhere = Span { start: 0, stop: 0 };
    Ok(Var {
        name,
        values: values(alloc, items)?,
        place: nowhere,
        kind_place: nowhere,
    })
}

fn names(alloc: Global) -> Result<Names, NoMemory> {
    let mut names = Names::new(alloc);
    for name in ["mode", "a.out", "x", "idle", "work", "rest"] {
        if names.len() < u32::MAX {
            names.add(name.as_bytes())?;
        }
    }
    Ok(names)
}

/// The variables `mode` of idle, work and rest, `a.out` of FALSE and TRUE, and `x` of -1, 0 and 1.
fn model(alloc: Global) -> Result<Model, NoMemory>
    ensures { IfOk result (λ m. counts m.vars ≡ 3 ∷ 2 ∷ 3 ∷ []) }
{
    let mut vars = Seq::new(alloc);
    vars.push(variable(alloc, 0, &[Value::Sym(3), Value::Sym(4), Value::Sym(5)])?)?;
    vars.push(variable(alloc, 1, &[Value::Bool(false), Value::Bool(true)])?)?;
    vars.push(variable(alloc, 2, &[Value::Int(-1), Value::Int(0), Value::Int(1)])?)?;
    Ok(Model {
        names: names(alloc)?,
        vars,
        defines: Seq::new(alloc),
        inits: Seq::new(alloc),
        invars: Seq::new(alloc),
        nows: Seq::new(alloc),
        firsts: Seq::new(alloc),
        nexts: Seq::new(alloc),
        trans: Seq::new(alloc),
        fair: Seq::new(alloc),
        specs: Seq::new(alloc),
    })
}

fn class(alloc: Global, places: &[u16]) -> Result<Seq<u16>, NoMemory>
    ensures { IfOk result (λ s. s ≡ places.now) }
{
    let mut class = Seq::new(alloc);
    class.extend_from_slice(places)?;
    Ok(class)
}

fn cube(alloc: Global, mode: &[u16], a: &[u16], x: &[u16]) -> Result<Cube, NoMemory>
    ensures { IfOk result (λ c. c ≡ mode.now ∷ a.now ∷ x.now ∷ []) }
{
    let mut cube = Seq::new(alloc);
    cube.push(class(alloc, mode)?)?;
    cube.push(class(alloc, a)?)?;
    cube.push(class(alloc, x)?)?;
    Ok(cube)
}

#[test]
fn a_set_stands_under_its_title(rt: HostRuntime) -> Result<(), Fail> {
    let alloc = rt.alloc();
    let m = model(alloc)?;
    let mut cubes = Seq::new(alloc);
    cubes.push(cube(alloc, &[0, 1], &[0], &[0, 1, 2])?)?;
    cubes.push(cube(alloc, &[2], &[0, 1], &[0, 2])?)?;
    cubes.push(cube(alloc, &[0, 1, 2], &[0, 1], &[0, 1, 2])?)?;
    let list = CubeList { cubes, more: true };
    let mut text = Seq::new(alloc);
    set_lines(alloc, &m, b"covered", &list, 4, &mut text)?;
    let wanted =
        "    covered\n      mode={idle,work},a.out=FALSE\n      mode=rest,x={-1,1}\n      all\n      more\n";
    assert!(rt; text.as_slice() == wanted.as_bytes());
    Ok(())
}

#[test]
fn an_empty_set_is_none(rt: HostRuntime) -> Result<(), Fail> {
    let alloc = rt.alloc();
    let m = model(alloc)?;
    let list = CubeList {
        cubes: Seq::new(alloc),
        more: false,
    };
    let mut text = Seq::new(alloc);
    no_fair_line(&mut text)?;
    no_specs_line(&mut text)?;
    set_lines(alloc, &m, b"initial", &list, 0, &mut text)?;
    let wanted = "no fair initial state\nno specifications\ninitial\n  none\n";
    assert!(rt; text.as_slice() == wanted.as_bytes());
    Ok(())
}

/// The variable `a.out` as a formula.
fn out() -> Formula {
    let place = Span { start: 0, stop: 0 };
    Formula::Atom(Expr {
        node: Node::Var(1),
        place,
    })
}

/// The lines of `AG a.out`, which passes, and of its two subformulas.
fn put_passing(alloc: Global, m: &Model, into: &mut Text) -> Result<(), NoMemory> {
    let always = Formula::Ag(Boxed::new(alloc, out())?);
    spec_line(alloc, m, 3, true, &always, into)?;
    occurrence_line(alloc, m, 12, true, &out(), into)?;
    occurrence_line(alloc, m, 13, false, &always, into)
}

#[test]
fn a_specification_has_its_lines(rt: HostRuntime) -> Result<(), Fail> {
    let alloc = rt.alloc();
    let m = model(alloc)?;
    let mut text = Seq::new(alloc);
    put_passing(alloc, &m, &mut text)?;
    signal_line(b"a.out", &mut text)?;
    spec_line(alloc, &m, 10, false, &out(), &mut text)?;
    note_line(Note::NotMeasured, 2, &mut text)?;
    let wanted =
        "spec 3 passes: AG a.out\n  occurrence 12 vacuous: a.out\n  occurrence 13 matters: AG a.out\n  signal a.out\nspec 10 fails: a.out\n  fails, not measured\n";
    assert!(rt; text.as_slice() == wanted.as_bytes());
    Ok(())
}
