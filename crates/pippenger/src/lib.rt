// Pippenger: each column's points put into buckets by their digits, the buckets summed by two running sums.
#![tactic(auto)]

ghost use Rattle.std.specs.Prelude.{◌≡◌};
ghost use Rattle.rules.specs.Numbers.{as_number};
ghost use Rattle.rules.specs.Results.{as_sum};
ghost use Rattle.rules.specs.Engines.{after, bucket_width, pippenger_refusal, pippenger};

use crate::buckets::buckets_count;
use crate::rows::Rows;
use rules::{Refusal, Row, Walk};

mod buckets;
mod rows;

// The digits' width by the number of scalars, before the points are looked at.
#[tactic(auto, unfolding(rules::specs::Engines::bucket_width))]
fn width(scalars: usize) -> usize
    ensures { result ≡ bucket_width scalars }
{
    match scalars {
        ..500 => 6,
        500..800 => 7,
        _ => 8,
    }
}

// The lists are handed on one by one, as to `asks`, where the reason stands.
// What the call asks, and the refusal where it is not so.
fn refusal(
    scalars: &[u8],
    points: &[u64],
    flags: &[u8],
    digits: usize,
    buckets: usize,
) -> Result<(), Refusal>
    ensures { as_number result ≡ pippenger_refusal scalars.now points.now flags.now digits buckets }
{
    asks::lists(scalars, points, flags)?;
    let m = lent::pairs(scalars, points);
    let limbs = 4 * buckets_count(width(scalars.len() / 32));
    asks::room(64 * m, digits, limbs, buckets)?;
    asks::contents(scalars, points, flags, m)
}

// The sum of scalar times point over all pairs; an absent point past the last scalar is ignored.
pub fn optional_multiscalar_mul(
    scalars: &[u8],
    points: &[u64],
    flags: &[u8],
    digits: &mut [i8],
    buckets: &mut [u64],
) -> Result<Walk, Refusal>
    ensures { after (as_sum result) digits.new buckets.new ≡ pippenger scalars.now points.now flags.now digits.old buckets.old }
{
    refusal(scalars, points, flags, digits.len(), buckets.len())?;
    let m = lent::pairs(scalars, points);
    let w = width(scalars.len() / 32);
    laying::rows(scalars, m, Row::Radix(w), &mut *digits);
    let rows = Rows { digits, points, m };
    let q = rows.walk(w, &mut *buckets);
    room::clear(&mut *digits, 0, 64 * m);
    room::clear(&mut *buckets, 0, 4 * buckets_count(w));
    Ok(q)
}
