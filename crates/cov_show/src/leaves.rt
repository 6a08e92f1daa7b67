ghost use Rattle.std.specs.Prelude.{◌≡◌, [], ◌++◌, OnOk, IsTrue, nat_lt};
ghost use Rattle.std.specs.Fmt.{signed_decimal};
ghost use Rattle.std.specs.Str.{bytes_eq};
ghost use Rattle.cov_show.specs.Printing as spec;
ghost use Rattle.cov_show.specs.Printing.{Labels, name_text, printed};
ghost use Rattle.cov_show.specs.States.{is_small_value};

use crate::words::{TIGHTEST, infix_level, prefix_level};
use cov_syntax::{Expr, Names, NoMemory, Node, Op1, Text, Value};
use itoa::Buffer;

/// The level of an expression.
pub fn level(e: &Expr) -> u32
    ensures { (labels : Labels) → result ≡ (printed labels e.now).level }
{
    match &e.node {
        Node::One(op, _) => prefix_level(*op),
        Node::Two(op, _, _) => infix_level(*op),
        _ => TIGHTEST,
    }
}

/// Whether it is an integer, a range or a unary minus.
fn is_signed(e: &Expr) -> bool
    ensures { (labels : Labels) → result ≡ (printed labels e.now).is_signed }
{
    matches!(
        &e.node,
        Node::Lit(Value::Int(_)) | Node::Range(_, _) | Node::One(Op1::Neg, _)
    )
}

/// Whether its level is lower than the one that is asked.
pub fn is_looser(e: &Expr, asked: u32) -> bool
    ensures { (labels : Labels) → result ≡ nat_lt (printed labels e.now).level asked }
{
    level(e) < asked
}

/// Whether parentheses stand round it behind a unary minus.
pub fn is_grouped_behind_minus(e: &Expr) -> bool
    ensures { (labels : Labels) → result ≡ spec.is_grouped_behind_minus (printed labels e.now) }
{
    is_signed(e) || level(e) < TIGHTEST
}

/// The name with this number, or nothing where there is none.
pub fn name_text(names: &Names, i: u32) -> &[u8]
    ensures { result.now ≡ name_text names.now i }
{
    if i < names.len() { names.text(i) } else { b"" }
}

pub fn show_name(names: &Names, i: u32, into: &mut Text) -> Result<(), NoMemory>
    ensures { OnOk result (into.new ≡ into.old ++ name_text names.now i) }
{
    into.extend_from_slice(name_text(names, i))
}

fn show_integer(i: i32, into: &mut Text) -> Result<(), NoMemory>
    ensures { OnOk result (into.new ≡ into.old ++ signed_decimal i) }
{
    into.extend_from_slice(Buffer::new().format(i).as_bytes())
}

pub fn show_value(names: &Names, value: Value, into: &mut Text) -> Result<(), NoMemory>
    ensures { OnOk result (into.new ≡ into.old ++ (spec.value_printed names.now value).bytes) }
{
    match value {
        Value::Bool(true) => into.extend_from_slice(b"TRUE"),
        Value::Bool(false) => into.extend_from_slice(b"FALSE"),
        Value::Int(i) => show_integer(i, into),
        Value::Sym(i) => show_name(names, i, into),
    }
}

/// Whether this is the text of the value.
pub fn is_value_text(names: &Names, value: Value, text: &[u8]) -> bool
    ensures small { IsTrue (is_small_value value) }
    ensures same { result ≡ bytes_eq text.now (spec.value_printed names.now value).bytes }
{
    match value {
        Value::Bool(true) => text == b"TRUE".as_slice(),
        Value::Bool(false) => text == b"FALSE".as_slice(),
        Value::Int(i) => text == Buffer::new().format(i).as_bytes(),
        Value::Sym(i) => text == name_text(names, i),
    }
}

pub fn show_range(low: i32, high: i32, into: &mut Text) -> Result<(), NoMemory>
    ensures { OnOk result (into.new ≡ into.old ++ spec.range_text low high) }
{
    show_integer(low, into)?;
    into.extend_from_slice(b"..")?;
    show_integer(high, into)
}

/// The names with a dot between each two.
pub fn show_path(names: &Names, path: &[u32], into: &mut Text) -> Result<(), NoMemory>
    ensures { OnOk result (into.new ≡ into.old ++ spec.path_text names.now [] path.now) }
{
    let mut mark: &[u8] = b"";
    for i in path {
        into.extend_from_slice(mark)?;
        show_name(names, *i, into)?;
        mark = b".";
    }
    Ok(())
}
