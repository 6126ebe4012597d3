// Lent room: its first units, clearing it, and putting a list into its part.
#![tactic(auto)]

ghost use Rattle.std.specs.Prelude.{◌≡◌};
ghost use Rattle.rules.specs.Lists.{put};
ghost use Rattle.rules.specs.Numbers.{cleared};

use lent::smaller;

pub mod parts;

// The given zero in the first n places that there are: of digits, limbs, or any other list. The library's `fill` would ask that a copy cannot fail, and a public function asks nothing.
pub fn clear<T: Copy>(list: &mut [T], zero: T, n: usize)
    ensures { list.new ≡ cleared zero n list.old }
{
    let end = smaller(n, list.len());
    for place in &mut list[..end] {
        *place = zero;
    }
}

// A row or a window into its part, which is untouched where it has another length.
pub fn put<T: Copy>(part: &mut [T], list: &[T])
    ensures { part.new ≡ put list.now part.old }
{
    if part.len() != list.len() {
        return;
    }
    part.copy_from_slice(list);
}
