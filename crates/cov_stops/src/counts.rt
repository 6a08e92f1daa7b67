ghost use Rattle.std.specs.Prelude.{◌≡◌, count_by};
ghost use Rattle.cov_stops.specs.Counted as spec;

use cov_syntax::{Expr, Node, Section, TypeTree};

/// Whether a section declares a variable.
fn is_variable(s: &Section) -> bool
    ensures { result ≡ spec.is_variable s.now }
{
    match s {
        Section::Decl { kind, .. } => match kind {
            TypeTree::Instance { .. } => false,
            TypeTree::Boolean => true,
            TypeTree::List(_) => true,
            TypeTree::Between(_, _) => true,
        },
        Section::Define { .. } => false,
        Section::Assign { .. } => false,
        Section::Cond { .. } => false,
    }
}

/// Whether a section declares a DEFINE.
fn is_define(s: &Section) -> bool
    ensures { result ≡ spec.is_define s.now }
{
    match s {
        Section::Decl { .. } => false,
        Section::Define { .. } => true,
        Section::Assign { .. } => false,
        Section::Cond { .. } => false,
    }
}

/// Whether an argument becomes a DEFINE: whether it is no path.
fn becomes_define(e: &Expr) -> bool
    ensures { result ≡ spec.becomes_define e.now }
{
    match &e.node {
        Node::Path(_) => false,
        _ => true,
    }
}

/// How many variables the sections declare.
pub fn variables(sections: &[Section]) -> usize
    ensures { result ≡ count_by spec.is_variable sections.now }
{
    let mut count = 0;
    for s in sections {
        if is_variable(s) {
            count += 1;
        }
    }
    count
}

/// How many DEFINEs the sections declare.
pub fn defines(sections: &[Section]) -> usize
    ensures { result ≡ count_by spec.is_define sections.now }
{
    let mut count = 0;
    for s in sections {
        if is_define(s) {
            count += 1;
        }
    }
    count
}

/// How many arguments become DEFINEs.
pub fn argument_defines(given: &[Expr]) -> usize
    ensures { result ≡ count_by spec.becomes_define given.now }
{
    given.iter().filter(|e| becomes_define(e)).count()
}
