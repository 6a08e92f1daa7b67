ghost use Rattle.std.specs.Prelude.{◌≡◌, ◌↔◌, ◌++◌, ◌+◌, ◌≤◌, length, IsTrue, IfErr, OnOk};
ghost use Rattle.cov_ctl.specs.Sizes.{size};
ghost use Rattle.cov_formulas.specs.Formulas.{IsFormulaOf};
ghost use Rattle.cov_claims.specs.Truths.{IsPassing};
ghost use Rattle.cov_coverage.specs.Puts.{Puts};
ghost use Rattle.cov_hold.specs.Prepared.{IsPrepared};
ghost use Rattle.cov_report.specs.declared.note.Note.TheVariants.{NotMeasured};
ghost use Rattle.cov_report.specs.SpecLines as lines;
ghost use Rattle.cov_space.specs.Answers.{IsCallFault};
ghost use Rattle.cov_types.specs.Roots.{greatest_size};
ghost use Rattle.cov_jobs.specs.declared.detail.Detail.TheVariants as details;
ghost use Rattle.cov_jobs.specs.Specifications.{Shows};

use crate::detail::Detail;
use crate::occurrences::put_occurrences;
use cov_coverage::{NamedSignal, put_signals};
use cov_ctl::Formula;
use cov_report::{Note, note_line};
use cov_space::SpaceFault;
use cov_sym::Sys;
use cov_syntax::{Seq, Text};
use cov_types::Checked;
use std::alloc::Global;

/// Puts the note that a specification, which does not pass, is not measured.
fn put_note(into: &mut Text) -> Result<(), SpaceFault>
    ensures ok { OnOk result (into.new ≡ into.old ++ lines.note_line NotMeasured 2) }
    ensures err { IfErr result (λ e. e ≡ SpaceFault.Memory) }
{
    match note_line(Note::NotMeasured, 2, into) {
        Ok(()) => Ok(()),
        Err(_) => Err(SpaceFault::Memory),
    }
}

/// Puts the occurrences of a formula, or that it is not measured.
fn put_vacuity(
    alloc: Global,
    m: &Checked,
    sys: &mut Sys,
    f: &Formula,
    passes: bool,
    into: &mut Text,
) -> Result<(), SpaceFault>
    requires prepared { IsPrepared m.now sys.old }
    requires alone { length sys.old.space.sets ≡ sys.old.built + 1 }
    requires formula { IsFormulaOf m.now f.now }
    requires small { size f.now ≤ greatest_size m.now.specs }
    requires few { size f.now ≤ 4096 }
    requires verdict { IsTrue passes ↔ IsPassing m.now f.now }
    ensures ok { OnOk result (Puts into.old into.new (Shows details.Occurrences m.now f.now passes)) }
    ensures kept { OnOk result (sys.new ≡ sys.old) }
    ensures same { sys.new ≡ record sys.old { space = sys.new.space } }
    ensures err { IfErr result (λ e. IsCallFault sys.old.space sys.new.space e) }
{
    if passes {
        return put_occurrences(alloc, m, sys, f, into);
    }
    put_note(into)
}

/// Puts the sections of signals for a formula, or that it is not measured.
fn put_coverage(
    alloc: Global,
    m: &Checked,
    sys: &mut Sys,
    f: &Formula,
    passes: bool,
    signals: &Seq<NamedSignal>,
    cubes: u32,
    into: &mut Text,
) -> Result<(), SpaceFault>
    requires prepared { IsPrepared m.now sys.old }
    requires alone { length sys.old.space.sets ≡ sys.old.built + 1 }
    requires formula { IsFormulaOf m.now f.now }
    requires small { size f.now ≤ greatest_size m.now.specs }
    requires verdict { IsTrue passes ↔ IsPassing m.now f.now }
    ensures ok { OnOk result (Puts into.old into.new (Shows (details.Coverage signals.now cubes) m.now f.now passes)) }
    ensures kept { OnOk result (sys.new ≡ sys.old) }
    ensures same { sys.new ≡ record sys.old { space = sys.new.space } }
    ensures err { IfErr result (λ e. IsCallFault sys.old.space sys.new.space e) }
{
    if passes {
        return put_signals(alloc, m, sys, f, signals, cubes, into);
    }
    put_note(into)
}

/// Puts what a report shows of a formula behind the line of its verdict.
pub(crate) fn put_details(
    alloc: Global,
    m: &Checked,
    sys: &mut Sys,
    detail: &Detail,
    f: &Formula,
    passes: bool,
    into: &mut Text,
) -> Result<(), SpaceFault>
    requires prepared { IsPrepared m.now sys.old }
    requires alone { length sys.old.space.sets ≡ sys.old.built + 1 }
    requires formula { IsFormulaOf m.now f.now }
    requires small { size f.now ≤ greatest_size m.now.specs }
    requires few { size f.now ≤ 4096 }
    requires verdict { IsTrue passes ↔ IsPassing m.now f.now }
    ensures ok { OnOk result (Puts into.old into.new (Shows detail.now m.now f.now passes)) }
    ensures kept { OnOk result (sys.new ≡ sys.old) }
    ensures same { sys.new ≡ record sys.old { space = sys.new.space } }
    ensures err { IfErr result (λ e. IsCallFault sys.old.space sys.new.space e) }
{
    match detail {
        Detail::Verdict => Ok(()),
        Detail::Occurrences => put_vacuity(alloc, m, sys, f, passes, into),
        Detail::Coverage { signals, cubes } => {
            put_coverage(alloc, m, sys, f, passes, signals, *cubes, into)
        }
    }
}
