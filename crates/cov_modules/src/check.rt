ghost use Rattle.std.specs.Prelude.{◌≡◌, None, IfOk, IfErr, OnOk};
ghost use Rattle.cov_modules.specs.Conditions.{IsFlattenable};
ghost use Rattle.cov_modules.specs.Flatten.{Tells};
ghost use Rattle.cov_modules.specs.Modules.{module_names};
ghost use Rattle.cov_modules.specs.ModuleFaults as spec;
ghost use Rattle.cov_modules.specs.Ranks as ranks;

use crate::arguments::wrong_arguments;
use crate::children::children;
use crate::clash::name_clash;
use crate::duplicates::duplicate_name;
use crate::instances::unknown_module;
use crate::main_module::main_place;
use crate::modules::Modules;
use crate::recursion::recursive_module;
use crate::size::is_over;
use crate::sizes::{size_at, sizes};
use cov_syntax::{FaultKind, NoMemory, Program, Refused, Seq, Span};
use std::alloc::Global;

/// The empty place at the start of the text.
const AT_START: Span = Span { start: 0, stop: 0 };

/// A place refuses with this kind of fault.
fn refuse(kind: FaultKind, place: Option<Span>) -> Result<(), Refused>
    ensures none { OnOk result (place ≡ None) }
    ensures fault { IfErr result (Tells (spec.fault kind place)) }
{
    match place {
        Some(place) => Err(Refused::Fault(kind.at(place))),
        None => Ok(()),
    }
}

/// The place of the fault that there is no `main`.
fn no_main(p: &Program) -> Option<Span>
    requires { IsFlattenable p.now }
    ensures { result ≡ spec.no_main p.now }
{
    match main_place(p) {
        Some(_) => None,
        None => Some(AT_START),
    }
}

/// The place of the fault that the flat model is too large.
fn too_large(
    alloc: Global,
    p: &Program,
    children: &Seq<Seq<usize>>,
) -> Result<Option<Span>, NoMemory>
    requires flattenable { IsFlattenable p.now }
    requires children { children.now ≡ ranks.children p.now }
    requires known { spec.in_modules p.now (spec.unknown_module p.now) ≡ None }
    requires arguments { spec.in_modules p.now (spec.wrong_arguments p.now) ≡ None }
    ensures { IfOk result (λ place. place ≡ spec.too_large p.now) }
{
    let Some(main) = main_place(p) else {
        return Ok(None);
    };
    let all = sizes(alloc, p, children)?;
    if is_over(size_at(all.as_slice(), main)) {
        Ok(Some(AT_START))
    } else {
        Ok(None)
    }
}

/// Whether a program can be flattened, up to the names in it: the first fault of its modules, in the order NoMain, DuplicateName,
/// UnknownModule, RecursiveModule, WrongArguments, NameClash, TooLarge. What is too large is refused before it is made.
pub fn check_modules(alloc: Global, p: &Program) -> Result<(), Refused>
    requires { IsFlattenable p.now }
    ensures ok { OnOk result (spec.modules_fault p.now ≡ None) }
    ensures err { IfErr result (Tells (spec.modules_fault p.now)) }
{
    refuse(FaultKind::NoMain, no_main(p))?;
    refuse(FaultKind::DuplicateName, duplicate_name(alloc, p)?)?;
    let modules = Modules::of(alloc, p)?;
    refuse(FaultKind::UnknownModule, unknown_module(p, &modules))?;
    let below = children(alloc, p, &modules)?;
    refuse(
        FaultKind::RecursiveModule,
        recursive_module(alloc, p, &modules, &below)?,
    )?;
    refuse(FaultKind::WrongArguments, wrong_arguments(p, &modules))?;
    refuse(FaultKind::NameClash, name_clash(alloc, p)?)?;
    refuse(FaultKind::TooLarge, too_large(alloc, p, &below)?)
}
