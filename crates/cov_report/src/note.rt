ghost use Rattle.std.specs.Prelude.{◌≡◌};

/// What stands in place of a measure.
#[derive(Clone, Copy, Debug, PartialEq, Eq)]
pub enum Note {
    /// A specification that fails is not measured.
    NotMeasured,
}

impl Note {
    ghost use Rattle.cov_report.specs.SpecLines.{note_text};

    pub(crate) fn text(self) -> &'static [u8]
        ensures { result.now ≡ note_text self }
    {
        match self {
            Note::NotMeasured => b"fails, not measured",
        }
    }
}
