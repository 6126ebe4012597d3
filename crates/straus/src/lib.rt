// Straus: radix 16 on points without flags, and NAF of width 5 on optional points.
#![tactic(auto)]

ghost use Rattle.std.specs.Prelude.{◌≡◌};
ghost use Rattle.rules.specs.Engines.{after, radix_straus, naf_straus};
ghost use Rattle.rules.specs.Results.{as_sum};

use rules::{Refusal, Row, Walk, Window};

pub(crate) mod naf;
pub(crate) mod radix_16;

// Counts of both parts are added here and in NAF Straus, as `rules::Walk` says.
// Radix-16 Straus.
pub fn multiscalar_mul(
    scalars: &[u8],
    points: &[u64],
    digits: &mut [i8],
    limbs: &mut [u64],
) -> Result<Walk, Refusal>
    ensures { after (as_sum result) digits.new limbs.new ≡ radix_straus scalars.now points.now digits.old limbs.old }
{
    crate::radix_16::refusal(scalars, points, digits.len(), limbs.len())?;
    let m = lent::pairs(scalars, points);
    laying::rows(scalars, m, Row::Radix(4), &mut *digits);
    let made = laying::windows(points, m, Window::Successive8, &mut *limbs);
    let w = crate::radix_16::walk(&digits[..64 * m], &limbs[..32 * m]);
    room::clear(&mut *digits, 0, 64 * m);
    room::clear(&mut *limbs, 0, 32 * m);
    Ok(Walk {
        element: w.element,
        additions: made.additions + w.additions,
        doublings: made.doublings + w.doublings,
    })
}

// NAF Straus.
pub fn optional_multiscalar_mul(
    scalars: &[u8],
    points: &[u64],
    flags: &[u8],
    digits: &mut [i8],
    limbs: &mut [u64],
) -> Result<Walk, Refusal>
    ensures { after (as_sum result) digits.new limbs.new ≡ naf_straus scalars.now points.now flags.now digits.old limbs.old }
{
    crate::naf::refusal(scalars, points, flags, digits.len(), limbs.len())?;
    let m = lent::pairs(scalars, points);
    let e = 256 * m;
    let f = 32 * m;
    laying::rows(scalars, m, Row::Naf(5), &mut *digits);
    let made = laying::windows(points, m, Window::Odd8, &mut *limbs);
    let rows = &digits[..e];
    let windows = &limbs[..f];
    let w = columns::walk(rows, windows, &rows[..0], &windows[..0], 256);
    room::clear(&mut *digits, 0, e);
    room::clear(&mut *limbs, 0, f);
    Ok(Walk {
        element: w.element,
        additions: made.additions + w.additions,
        doublings: made.doublings + w.doublings,
    })
}
