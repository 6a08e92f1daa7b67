ghost use Rattle.std.specs.Prelude.{◌≡◌, false, get_or, ◌<◌, length, OnOk, IfErr, vec_len, vec_capacity};
ghost use Rattle.cov_dd.specs.Reached.{AllLive, AllReached};
ghost use Rattle.cov_space.specs.Tasks.{IsTask, asked, Performed, den_at, set_in, Kept, Puts, IsTaskFault};

use crate::slots::Slot;
use cov_dd::{Op, Ref, Table, TableFault};

/// What a basic operation makes of the sets at some places.
#[derive(Clone, Copy, PartialEq, Eq, Debug)]
pub enum Task {
    Bit(u16),
    Apply(Op, Slot, Slot),
    Not(Slot),
    Restrict(Slot, u16, bool),
}

/// Does a task, and puts the set that it makes last. Where the table is full, it is done again after a collection.
pub fn run(table: &mut Table, list: &mut Vec<Ref>, task: Task) -> Result<(), TableFault>
    requires live { AllLive table.old.nodes list.old.items }
    requires task { IsTask table.old.levels (length list.old.items) task }
    requires room { vec_len list.old < vec_capacity list.old }
    ensures kept { Kept table.old table.new list.new.items }
    ensures capacity { vec_capacity list.new ≡ vec_capacity list.old }
    ensures ok { OnOk result (Puts table.old table.new list.old.items list.new.items (asked (set_in table.old list.old.items) task)) }
    ensures err { IfErr result (λ e. IsTaskFault table.old table.new list.old.items list.new.items (asked (set_in table.old list.old.items) task) e) }
{
    let _before = table.held();
    match perform(table, list.as_slice(), task) {
        Ok(r) => {
            let _held = table.held();
            list.push_reserved(r);
            Ok(())
        }
        Err(TableFault::Full { .. }) => again(table, list, task),
        Err(TableFault::Memory) => Err(TableFault::Memory),
    }
}

/// A collection, and one try more.
fn again(table: &mut Table, list: &mut Vec<Ref>, task: Task) -> Result<(), TableFault>
    requires live { AllLive table.old.nodes list.old.items }
    requires task { IsTask table.old.levels (length list.old.items) task }
    requires room { vec_len list.old < vec_capacity list.old }
    ensures kept { Kept table.old table.new list.new.items }
    ensures capacity { vec_capacity list.new ≡ vec_capacity list.old }
    ensures ok { OnOk result (Puts table.old table.new list.old.items list.new.items (asked (set_in table.old list.old.items) task)) }
    ensures err { IfErr result (λ e. IsTaskFault table.old table.new list.old.items list.new.items (asked (set_in table.old list.old.items) task) e) }
{
    let _before = table.held();
    match table.collect_slice(list.as_mut_slice()) {
        Err(_) => Err(TableFault::Memory),
        Ok(()) => last(table, list, task),
    }
}

/// The try after a collection.
fn last(table: &mut Table, list: &mut Vec<Ref>, task: Task) -> Result<(), TableFault>
    requires live { AllLive table.old.nodes list.old.items }
    requires reached { AllReached table.old.nodes list.old.items }
    requires task { IsTask table.old.levels (length list.old.items) task }
    requires room { vec_len list.old < vec_capacity list.old }
    ensures kept { Kept table.old table.new list.new.items }
    ensures capacity { vec_capacity list.new ≡ vec_capacity list.old }
    ensures ok { OnOk result (Puts table.old table.new list.old.items list.new.items (asked (set_in table.old list.old.items) task)) }
    ensures err { IfErr result (λ e. IsTaskFault table.old table.new list.old.items list.new.items (asked (set_in table.old list.old.items) task) e) }
{
    let _before = table.held();
    match perform(table, list.as_slice(), task) {
        Ok(r) => {
            let _held = table.held();
            list.push_reserved(r);
            Ok(())
        }
        Err(fault) => {
            let _held = table.held();
            Err(fault)
        }
    }
}

/// One try.
fn perform(table: &mut Table, list: &[Ref], task: Task) -> Result<Ref, TableFault>
    requires live { AllLive table.old.nodes list.now }
    requires task { IsTask table.old.levels (length list.now) task }
    ensures { Performed table.old table.new result (asked (den_at table.old.nodes list.now) task) }
{
    match task {
        Task::Bit(level) => bit(table, level),
        Task::Apply(op, a, b) => table.apply(op, list[a as usize], list[b as usize]),
        Task::Not(a) => table.not(list[a as usize]),
        Task::Restrict(a, level, bit) => table.restrict(list[a as usize], level, bit),
    }
}

/// The diagram of the bit of a level.
fn bit(table: &mut Table, level: u16) -> Result<Ref, TableFault>
    requires { level < table.old.levels }
    ensures { Performed table.old table.new result (λ row. get_or row level false) }
{
    Ok(table.mk(level, Ref::Constant(false), Ref::Constant(true))?)
}
