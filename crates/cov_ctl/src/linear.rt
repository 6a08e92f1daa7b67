//! The linear fragment: formulas of which one lasso tells that they are false, or that they are true.

ghost use Rattle.std.specs.Prelude.{◌≡◌, false};
ghost use Rattle.cov_syntax.specs.declared.tree.Expr.{Expr};
ghost use Rattle.cov_logic.specs.Formula as logic;
ghost use Rattle.cov_logic.specs.LinearFragment.{is_universal};
ghost use Rattle.cov_ctl.specs.Formulas.{formula_of};
ghost use Rattle.cov_ctl.specs.Fragments.{IsFragmentOf};

use crate::formula::Formula;

/// Whether a formula has no temporal operator, and whether one lasso tells that it is false, and that it is true.
#[derive(Clone, Copy)]
struct Fragment {
    plain: bool,
    universal: bool,
    existential: bool,
}

/// Whether the formula is linear universal: one lasso tells that it is false.
pub fn is_linear(f: &Formula) -> bool
    ensures { result ≡ is_universal (formula_of f.now) }
{
    walk(f).universal
}

/// One walk finds all three of every node, so that it is linear in the size.
fn walk(f: &Formula) -> Fragment
    ensures { IsFragmentOf (formula_of f.now) result }
{
    match f {
        Formula::Atom(_) => Fragment {
            plain: true,
            universal: true,
            existential: true,
        },
        Formula::Not(f) => not(walk(f.get())),
        Formula::And(f, g) => and(walk(f.get()), walk(g.get())),
        Formula::Or(f, g) => or(walk(f.get()), walk(g.get())),
        Formula::Implies(f, g) => implies(walk(f.get()), walk(g.get())),
        Formula::Ex(f) | Formula::Ef(f) => on_some_path(walk(f.get()).existential),
        Formula::Eg(f) => on_some_path(walk(f.get()).plain),
        Formula::Eu(f, g) => on_some_path(walk(f.get()).plain && walk(g.get()).existential),
        Formula::Ax(f) | Formula::Ag(f) => on_every_path(walk(f.get()).universal),
        Formula::Af(f) => on_every_path(walk(f.get()).plain),
        Formula::Au(f, g) => on_every_path(walk(f.get()).universal && walk(g.get()).plain),
    }
}

/// `!f`.
fn not(f: Fragment) -> Fragment
    ensures { (a : logic.Formula Expr) → IsFragmentOf a f → IsFragmentOf (logic.Not a) result }
{
    Fragment {
        plain: f.plain,
        universal: f.existential,
        existential: f.universal,
    }
}

/// `f & g`.
fn and(f: Fragment, g: Fragment) -> Fragment
    ensures { (a b : logic.Formula Expr) → IsFragmentOf a f → IsFragmentOf b g → IsFragmentOf (logic.And a b) result }
{
    Fragment {
        plain: f.plain && g.plain,
        universal: f.universal && g.universal,
        existential: (f.plain && g.existential) || (f.existential && g.plain),
    }
}

/// `f | g`.
fn or(f: Fragment, g: Fragment) -> Fragment
    ensures { (a b : logic.Formula Expr) → IsFragmentOf a f → IsFragmentOf b g → IsFragmentOf (logic.Or a b) result }
{
    Fragment {
        plain: f.plain && g.plain,
        universal: (f.plain && g.universal) || (f.universal && g.plain),
        existential: f.existential && g.existential,
    }
}

/// `f -> g`.
fn implies(f: Fragment, g: Fragment) -> Fragment
    ensures { (a b : logic.Formula Expr) → IsFragmentOf a f → IsFragmentOf b g → IsFragmentOf (logic.Implies a b) result }
{
    Fragment {
        plain: f.plain && g.plain,
        universal: f.plain && g.universal,
        existential: f.plain && g.plain,
    }
}

/// An operator for some path, where one lasso may tell that the formula is true.
fn on_some_path(existential: bool) -> Fragment
    ensures { result ≡ record { plain = false; universal = false; existential = existential } }
{
    Fragment {
        plain: false,
        universal: false,
        existential,
    }
}

/// An operator for every path, where one lasso may tell that the formula is false.
fn on_every_path(universal: bool) -> Fragment
    ensures { result ≡ record { plain = false; universal = universal; existential = false } }
{
    Fragment {
        plain: false,
        universal,
        existential: false,
    }
}
