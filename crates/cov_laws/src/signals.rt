//! A law of inverted signals.

ghost use Rattle.cov_laws.specs.Signals.{InvertingIsLocal};

/// Inverting a signal negates its own reading, and leaves what does not read it as it is.
pub fn inverting_is_local()
    ensures { InvertingIsLocal }
{}
