ghost use Rattle.std.specs.Prelude.{◌≡◌, slice_get};

/// The entry at a place, from 0, if there is one.
pub fn entry<T: Copy>(table: &[T], at: u8) -> Option<T>
    ensures { result ≡ slice_get table.now at }
{
    table.get(at as usize).copied()
}
