// What several calls ask of lent lists: the parts that refusals are put together from.
// Scalars, points and flags are handed on one by one and not in a struct, and flags are bytes beside flat points: the calls that README.md names and the claims `one-asks-lists` and its kin have them so, after document 01.
#![tactic(auto)]

ghost use Rattle.std.specs.Prelude.{◌≡◌, [], ◌∷◌};
ghost use Rattle.rules.specs.Values.{optional_at};
ghost use Rattle.rules.specs.Numbers.{absent_point, as_number, first};
ghost use Rattle.rules.specs.Lists.{point_over, bad_lists, absent_below};
ghost use Rattle.rules.specs.Asks.{plain_lists, flagged_lists, enough_room, plain_contents, flagged_contents};

use lent::{MOST, any_big, any_over, not_whole, too_many};
use rules::{Element, Refusal};

// 1 and 2 of scalars and of points without flags.
pub fn plain_lists(scalars: &[u8], points: &[u64]) -> Result<(), Refusal>
    ensures { as_number result ≡ first (plain_lists scalars.now points.now) }
{
    if not_whole(scalars.len(), 32) | not_whole(points.len(), 4) {
        return Err(Refusal::NotWhole);
    }
    if too_many(scalars.len(), 32, MOST) | too_many(points.len(), 4, MOST) {
        return Err(Refusal::TooMany);
    }
    Ok(())
}

// 1 and 2 of scalars, points and flags.
pub fn lists(scalars: &[u8], points: &[u64], flags: &[u8]) -> Result<(), Refusal>
    ensures { as_number result ≡ first (flagged_lists scalars.now points.now flags.now) }
{
    if flags.len() != points.len() / 4 {
        return Err(Refusal::NotWhole);
    }
    plain_lists(scalars, points)
}

// 5 of working room: so many digits and limbs are needed, so many are lent.
pub fn room(
    needed_digits: usize,
    digits: usize,
    needed_limbs: usize,
    limbs: usize,
) -> Result<(), Refusal>
    ensures { as_number result ≡ first (enough_room needed_digits digits needed_limbs limbs) }
{
    if (digits < needed_digits) | (limbs < needed_limbs) {
        return Err(Refusal::BadRoom);
    }
    Ok(())
}

// By a test of the length and an index: over `get` it was tried, and the proof did not close.
// Point i by its flag: absent where that is 0, and past the flags' end.
fn optional_at(points: &[u64], flags: &[u8], i: usize) -> Option<Element>
    ensures { result ≡ optional_at points.now flags.now i }
{
    if flags.len() <= i {
        return None;
    }
    if flags[i] == 0 {
        return None;
    }
    Some(flat::element_at(points, i))
}

// 7: whether a point is present and at or above L.
#[tactic(auto, unfolding(rules::specs::Lists::point_over))]
fn point_over(point: Option<Element>) -> bool
    ensures { result ≡ point_over point }
{
    point.is_some_and(|e| residue::over(e))
}

// 7: whether a flag is other than 0 and 1, or a point is so; the limbs of an absent one are not looked at.
fn bad_lists(points: &[u64], flags: &[u8]) -> bool
    ensures { result ≡ bad_lists points.now flags.now }
{
    let n = points.len() / 4;
    for i in 0..flags.len() {
        let over = point_over(optional_at(points, flags, i));
        if (1 < flags[i]) | ((i < n) & over) {
            return true;
        }
    }
    false
}

// 8: each of the first n points is taken apart, by the `let .. else` that document 01 names.
fn present(points: &[u64], flags: &[u8], n: usize) -> Result<(), Refusal>
    ensures { as_number result ≡ first ((absent_below points.now flags.now n, absent_point) ∷ []) }
{
    for i in 0..n {
        let Some(_) = optional_at(points, flags, i) else {
            return Err(Refusal::AbsentPoint);
        };
    }
    Ok(())
}

// 6 and 7 of scalars and of points without flags.
pub fn plain_contents(scalars: &[u8], points: &[u64]) -> Result<(), Refusal>
    ensures { as_number result ≡ first (plain_contents scalars.now points.now) }
{
    if any_big(scalars) {
        return Err(Refusal::BigScalar);
    }
    if any_over(points) {
        return Err(Refusal::BadPoint);
    }
    Ok(())
}

// 6, 7 and 8 of scalars, points and flags, where the first n points are needed.
pub fn contents(scalars: &[u8], points: &[u64], flags: &[u8], n: usize) -> Result<(), Refusal>
    ensures { as_number result ≡ first (flagged_contents scalars.now points.now flags.now n) }
{
    if any_big(scalars) {
        return Err(Refusal::BigScalar);
    }
    if bad_lists(points, flags) {
        return Err(Refusal::BadPoint);
    }
    present(points, flags, n)
}
