// Radix-16 Straus: what it asks, and the walk that adds at every place.
ghost use Rattle.std.specs.Prelude.{◌≡◌, ◌<◌, ◌+◌, ◌^◌, length};
ghost use Rattle.rules.specs.Rows.{digit};
ghost use Rattle.rules.specs.Numbers.{as_number};
ghost use Rattle.rules.specs.Engines.{radix_straus_refusal};
ghost use Rattle.rules.specs.Helpers.{looked_up};
ghost use Rattle.straus.specs.Radix.{radix_rows, with_entry, with_column, radix_walked};

use rules::{Refusal, Walk};

// What the call asks, and the refusal where it is not so.
pub(crate) fn refusal(
    scalars: &[u8],
    points: &[u64],
    digits: usize,
    limbs: usize,
) -> Result<(), Refusal>
    ensures { as_number result ≡ radix_straus_refusal scalars.now points.now digits limbs }
{
    asks::plain_lists(scalars, points)?;
    let m = lent::pairs(scalars, points);
    asks::room(64 * m, digits, 32 * m, limbs)?;
    asks::plain_contents(scalars, points)
}

// w with one row's entry at place j added, also where its digit is 0.
pub(crate) fn added(w: Walk, row: &[i8], window: &[u64], j: usize) -> Walk
    requires place { j < length row.now }
    requires count { w.additions + 1 < 2 ^ 64 }
    ensures { result ≡ with_entry (looked_up 8 window.now (digit row.now j)) w }
{
    Walk {
        element: residue::plus(w.element, lookup::looked_up(window, row[j])),
        additions: w.additions + 1,
        ..w
    }
}

// w with place j of every row, each handed on as a part with its window's part.
// The loop is that of `columns::Rows::column` at 64 places and with another step: one for both would be handed the step and its law, and be no plainer.
pub(crate) fn column(w: Walk, digits: &[i8], limbs: &[u64], j: usize) -> Walk
    requires place { j < 64 }
    requires count { w.additions + radix_rows digits.now limbs.now < 2 ^ 64 }
    ensures { result ≡ with_column digits.now limbs.now (radix_rows digits.now limbs.now) j w }
{
    let mut r = w;
    let windows = limbs.chunks_exact(32);
    for (row, window) in digits.chunks_exact(64).zip(windows) {
        r = added(r, row, window, j);
    }
    r
}

// From the highest of 64 places down: four doublings, then the column.
pub(crate) fn walk(digits: &[i8], limbs: &[u64]) -> Walk
    ensures { result ≡ radix_walked digits.now limbs.now (radix_rows digits.now limbs.now) }
{
    let mut w = Walk {
        element: residue::identity(),
        additions: 0,
        doublings: 0,
    };
    for j in (0..64).rev() {
        let doubled = Walk {
            element: residue::mul_by_pow_2(w.element, 4),
            doublings: w.doublings + 4,
            ..w
        };
        w = column(doubled, digits, limbs, j);
    }
    w
}
