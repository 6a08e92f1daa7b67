ghost use Rattle.std.specs.Prelude.{◌≡◌, [], ◌++◌, map, IsTrue, OnOk, OnErr};
ghost use Rattle.cov_show.specs.Printing as spec;
ghost use Rattle.cov_show.specs.Printing.{printed, node_printed, branch_printed};
ghost use Rattle.cov_show.specs.ReadAgain.{IsTree, all_named, IsReadAs};

use crate::labels::Labels;
use crate::leaves::{is_grouped_behind_minus, is_looser, show_path, show_range, show_value};
use crate::words;
use cov_syntax::{Branch, Expr, Names, NoMemory, Node, Op1, Op2, Seq, Text};
use std::alloc::Global;

/// Appends the text of a tree that stands before flattening, with the fewest parentheses.
pub fn show_tree(alloc: Global, names: &Names, e: &Expr, into: &mut Text) -> Result<(), NoMemory>
    requires given { IsTree e.now }
    requires named { IsTrue (all_named names.now e.now) }
    ensures ok { OnOk result (into.new ≡ into.old ++ spec.tree_text names.now e.now) }
    ensures err { OnErr result (into.new ≡ into.old) }
{
    // The text is put together first, so that a want of memory leaves no part of it.
    let mut text = Seq::new(alloc);
    show(&Labels::of_names(names), e, 1, &mut text)?;
    into.extend_from_slice(text.as_slice())
}

/// An expression where a level is asked.
#[cycle(show)]
pub fn show(labels: &Labels<'_>, e: &Expr, asked: u32, into: &mut Text) -> Result<(), NoMemory>
    ensures { OnOk result (into.new ≡ into.old ++ spec.placed asked (printed labels.now e.now)) }
{
    show_grouped(labels, e, is_looser(e, asked), into)
}

/// The operand of a unary minus.
#[cycle(show)]
fn show_negated(labels: &Labels<'_>, e: &Expr, into: &mut Text) -> Result<(), NoMemory>
    ensures { OnOk result (into.new ≡ into.old ++ spec.negated (printed labels.now e.now)) }
{
    show_grouped(labels, e, is_grouped_behind_minus(e), into)
}

#[cycle(show)]
fn show_grouped(
    labels: &Labels<'_>,
    e: &Expr,
    in_parens: bool,
    into: &mut Text,
) -> Result<(), NoMemory>
    ensures { OnOk result (into.new ≡ into.old ++ spec.grouped in_parens (printed labels.now e.now).bytes) }
{
    if in_parens {
        into.push(b'(')?;
        show_node(labels, &e.node, into)?;
        into.push(b')')
    } else {
        show_node(labels, &e.node, into)
    }
}

/// An expression without the parentheses that its place may ask.
#[cycle(show)]
pub fn show_node(labels: &Labels<'_>, node: &Node, into: &mut Text) -> Result<(), NoMemory>
    ensures { OnOk result (into.new ≡ into.old ++ (node_printed labels.now node.now).bytes) }
{
    match node {
        Node::Lit(value) => show_value(labels.names(), *value, into),
        Node::Path(path) => show_path(labels.names(), path.as_slice(), into),
        Node::Var(i) => into.extend_from_slice(labels.variable(*i)),
        Node::Def(i) => into.extend_from_slice(labels.define(*i)),
        Node::One(op, e) => show_prefix(labels, *op, e.get(), into),
        Node::Two(op, a, b) => {
            show_left(labels, *op, a.get(), into)?;
            show_right(labels, *op, b.get(), into)
        }
        Node::Range(low, high) => show_range(*low, *high, into),
        Node::Set(elements) => show_set(labels, elements, into),
        Node::Case(branches) => show_case(labels, branches, into),
    }
}

#[cycle(show)]
fn show_prefix(labels: &Labels<'_>, op: Op1, e: &Expr, into: &mut Text) -> Result<(), NoMemory>
    ensures { OnOk result (into.new ≡ into.old ++ (spec.prefix_printed op (printed labels.now e.now)).bytes) }
{
    into.extend_from_slice(words::before(op))?;
    match op {
        Op1::Neg => show_negated(labels, e, into),
        Op1::Next => {
            show(labels, e, 1, into)?;
            into.push(b')')
        }
        _ => show(labels, e, 5, into),
    }
}

/// The left operand, with what stands before it and behind it.
#[cycle(show)]
fn show_left(labels: &Labels<'_>, op: Op2, a: &Expr, into: &mut Text) -> Result<(), NoMemory>
    ensures { OnOk result (into.new ≡ into.old ++ spec.left_text op (printed labels.now a.now)) }
{
    into.extend_from_slice(words::before_left(op))?;
    show(labels, a, words::left_asks(op), into)?;
    into.extend_from_slice(words::between(op))
}

/// The right operand, and what stands behind it.
#[cycle(show)]
fn show_right(labels: &Labels<'_>, op: Op2, b: &Expr, into: &mut Text) -> Result<(), NoMemory>
    ensures { OnOk result (into.new ≡ into.old ++ spec.right_text op (printed labels.now b.now)) }
{
    show(labels, b, words::right_asks(op), into)?;
    into.extend_from_slice(words::behind_right(op))
}

#[cycle(show)]
fn show_set(labels: &Labels<'_>, elements: &Seq<Expr>, into: &mut Text) -> Result<(), NoMemory>
    ensures { OnOk result (into.new ≡ into.old ++ spec.set_text (map (printed labels.now) elements.now)) }
{
    into.push(b'{')?;
    let mut mark: &[u8] = b"";
    for e in elements.as_slice() {
        into.extend_from_slice(mark)?;
        show(labels, e, 1, into)?;
        mark = b", ";
    }
    into.push(b'}')
}

#[cycle(show)]
fn show_case(labels: &Labels<'_>, branches: &Seq<Branch>, into: &mut Text) -> Result<(), NoMemory>
    ensures { OnOk result (into.new ≡ into.old ++ spec.case_text (map (branch_printed labels.now) branches.now)) }
{
    into.extend_from_slice(b"case ")?;
    for b in branches.as_slice() {
        show_branch(labels, b, into)?;
    }
    into.extend_from_slice(b"esac")
}

#[cycle(show)]
fn show_branch(labels: &Labels<'_>, b: &Branch, into: &mut Text) -> Result<(), NoMemory>
    ensures { OnOk result (into.new ≡ into.old ++ spec.branch_text (branch_printed labels.now b.now)) }
{
    show(labels, &b.guard, 1, into)?;
    into.extend_from_slice(b" : ")?;
    show(labels, &b.body, 1, into)?;
    into.extend_from_slice(b"; ")
}
