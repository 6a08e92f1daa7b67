ghost use Rattle.std.specs.Prelude.{◌≡◌};

/// What ends a list of states.
#[derive(Clone, Copy, Debug, PartialEq, Eq)]
pub(crate) enum Ending {
    /// The line behind the stem.
    Turn,
    /// The last line.
    End,
}

impl Ending {
    ghost use Rattle.cov_evid.specs.Spelling.{ending_line};

    /// The line.
    pub(crate) fn line(self) -> &'static [u8]
        ensures { result.now ≡ ending_line self }
    {
        match self {
            Ending::Turn => b"turn",
            Ending::End => b"end",
        }
    }
}
