ghost use Rattle.std.specs.Prelude.{◌≡◌, ◌++◌, IfSome};
ghost use Rattle.std.specs.Option.{option_copied};
ghost use Rattle.cov_evid.specs.FirstFault as spec;

/// What stands behind a front in a line that begins with it.
pub(crate) fn behind<'a>(front: &[u8], line: &'a [u8]) -> Option<&'a [u8]>
    ensures some { IfSome result (λ rest. line.now ≡ front.now ++ rest.now) }
    ensures value { option_copied result ≡ spec.behind front.now line.now }
{
    line.strip_prefix(front)
}
