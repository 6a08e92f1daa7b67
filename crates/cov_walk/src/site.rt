use crate::may::May;
use cov_syntax::Span;

/// Where an expression stands: its bytes, and what may stand there.
#[derive(Clone, Copy)]
pub(crate) struct Site {
    pub(crate) place: Span,
    pub(crate) may: May,
}
