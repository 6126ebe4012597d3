// A signed digit: its absolute value, and the window entry that it names.
#![tactic(auto)]

ghost use Rattle.std.specs.Prelude.{◌≡◌, nat_abs};
ghost use Rattle.rules.specs.Loops.{odd_entry};

// |d|, of the digit widened to i16, as document 01 names it: -128 has its negative there.
pub fn magnitude(d: i8) -> usize
    ensures { result ≡ nat_abs d }
{
    i16::from(d).unsigned_abs() as usize
}

// The entry of an odd window that a NAF digit names, from 0; the first for a digit of 0.
#[tactic(auto, unfolding(rules::specs::Loops::odd_entry))]
pub fn odd_entry(d: i8) -> usize
    ensures { result ≡ odd_entry d }
{
    magnitude(d).saturating_sub(1) / 2
}
