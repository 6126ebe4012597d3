// Precomputed Straus: static tables of width 8, dynamic rows and windows of width 5.
#![tactic(auto)]

ghost use Rattle.std.specs.Prelude.{◌≡◌};
ghost use Rattle.rules.specs.Results.{as_counted, as_sum};
ghost use Rattle.rules.specs.Engines.{after, after_new, new_tables, mixed};

use crate::lists::Mixed;
// The most static points: more are refused by 2.
pub use lent::MOST_STATIC;
use rules::{Counts, Refusal, Walk, Window};

pub(crate) mod lists;
pub(crate) mod refusals;

// Limbs of a static point's table: 1P, 3P, .. 127P.
pub const TABLE_LIMBS: usize = 256;

// The static tables of points without flags.
pub fn new(points: &[u64], tables: &mut [u64]) -> Result<Counts, Refusal>
    ensures { after_new (as_counted result) tables.new ≡ new_tables points.now tables.old }
{
    crate::refusals::new_refusal(points, tables.len())?;
    let n = points.len() / 4;
    Ok(laying::windows(points, n, Window::Odd64, &mut *tables))
}

// Seven parameters, since README.md names them; inside, the lists travel as `Mixed`.
// The sum over static rows on their tables as they stand, and over dynamic pairs.
pub fn optional_mixed_multiscalar_mul(
    tables: &[u64],
    static_scalars: &[u8],
    dynamic_scalars: &[u8],
    dynamic_points: &[u64],
    dynamic_flags: &[u8],
    digits: &mut [i8],
    limbs: &mut [u64],
) -> Result<Walk, Refusal>
    ensures { after (as_sum result) digits.new limbs.new ≡ mixed tables.now static_scalars.now dynamic_scalars.now dynamic_points.now dynamic_flags.now digits.old limbs.old }
{
    let lists = Mixed {
        tables,
        static_scalars,
        scalars: dynamic_scalars,
        points: dynamic_points,
        flags: dynamic_flags,
    };
    lists.refusal(digits.len(), limbs.len())?;
    let p = dynamic_scalars.len() / 32;
    let e = 256 * (static_scalars.len() / 32 + p);
    let f = 32 * p;
    let w = lists.walk(&mut digits[..e], &mut limbs[..f]);
    room::clear(&mut *digits, 0, e);
    room::clear(&mut *limbs, 0, f);
    Ok(w)
}
