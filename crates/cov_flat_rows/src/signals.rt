use crate::models::CELLS;
use crate::reading::checked_model;
use cov_model::Signal;
use std::alloc::Global;
use std::test::Fail;

/// The signal of this name in the model of cells, if it is accepted.
fn signal_of(alloc: Global, name: &[u8]) -> Option<Signal> {
    match checked_model(alloc, CELLS) {
        Ok(checked) => checked.signal(name),
        Err(_) => None,
    }
}

#[test]
fn boolean_variables_of_instances_are_signals(rt: HostRuntime) -> Result<(), Fail> {
    let alloc = rt.alloc();
    assert_eq!(rt; signal_of(alloc, b"b.out"), Some(Signal::Var(2)));
    assert_eq!(rt; signal_of(alloc, b"a.d"), Some(Signal::Def(0)));
    assert_eq!(rt; signal_of(alloc, b"mode"), None);
    assert_eq!(rt; signal_of(alloc, b"c.out"), None);
    Ok(())
}

#[test]
fn a_boolean_variable_is_a_signal_and_a_number_is_none(rt: HostRuntime) -> Result<(), Fail> {
    let text = b"MODULE main VAR out : boolean; mode : {0, 2};";
    let checked = checked_model(rt.alloc(), text).ok().ok_or("refused")?;
    assert_eq!(rt; checked.model().vars.len(), 2);
    assert_eq!(rt; checked.signal(b"out"), Some(Signal::Var(0)));
    assert_eq!(rt; checked.signal(b"mode"), None);
    assert_eq!(rt; checked.signal(b"q"), None);
    Ok(())
}
