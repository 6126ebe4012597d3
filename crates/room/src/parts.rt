// The first n units of lent memory, and all of it where it has no more: for programs that learn at run time how many pairs or slots they have. A unit is so many places: 32 bytes for a scalar, 4 limbs for a point, 256 digits and 32 limbs for a slot.
ghost use Rattle.std.specs.Prelude.{◌≡◌, ◌*◌, min};
ghost use Rattle.rules.specs.Parts.{first_units};

// How many of so many places the first n units take.
fn places(unit: usize, n: usize, len: usize) -> usize
    ensures { result ≡ min (unit * n) len }
{
    unit.saturating_mul(n).min(len)
}

// The list, its unit and the count are three arguments, as README.md names them; so with `first_units_mut`.
// Lent memory that a call reads: scalars, flags in units of one, points, or static tables in units of 256 limbs.
pub fn first_units<T>(list: &[T], unit: usize, n: usize) -> &[T]
    ensures { result.now ≡ first_units unit n list.now }
{
    let end = places(unit, n, list.len());
    &list[..end]
}

// Lent memory that a call may write: working room for n pairs, or the rows or windows of n slots.
pub fn first_units_mut<T>(room: &mut [T], unit: usize, n: usize) -> &mut [T]
    ensures { result.now ≡ first_units unit n room.old }
{
    let end = places(unit, n, room.len());
    &mut room[..end]
}
