// The walk down the columns of NAF rows.
#![tactic(auto)]

ghost use Rattle.std.specs.Prelude.{◌≡◌, ◌+◌, ◌^◌, ◌<◌, length};
ghost use Rattle.rules.specs.Values.{element_at};
ghost use Rattle.rules.specs.Rows.{digit};
ghost use Rattle.rules.specs.Loops.{nonzero, odd_entry};
ghost use Rattle.rules.specs.Batch.{slot_digit};
ghost use Rattle.rules.specs.Group.{elements};
ghost use Rattle.rules.specs.Helpers.{window_entry, windowed_rows, walked};
ghost use Rattle.laws.specs.Weight.{column_weight};
ghost use Rattle.laws.specs.Running.{onward, passed};
ghost use Rattle.columns.specs.Running.{run};

use rules::Walk;

// w with one row's digit at place j: its entry is added, taken away where it is negative, left out where it is 0.
pub(crate) fn moved(w: Walk, row: &[i8], window: &[u64], j: usize) -> Walk
    requires place { j < length row.now }
    requires count { w.additions + nonzero (digit row.now j) < 2 ^ 64 }
    ensures sum { run result ≡ onward elements (digit row.now j) (element_at window.now (odd_entry (digit row.now j))) (run w) }
    ensures doublings { result.doublings ≡ w.doublings }
{
    let d = row[j];
    if d == 0 {
        return w;
    }
    let x = flat::element_at(window, digit::odd_entry(d));
    let additions = w.additions + 1;
    if d < 0 {
        return Walk {
            element: residue::minus(w.element, x),
            additions,
            ..w
        };
    }
    Walk {
        element: residue::plus(w.element, x),
        additions,
        ..w
    }
}

// NAF rows, and beside them their windows of so many limbs; a row without a window is left out.
#[derive(Clone, Copy)]
pub(crate) struct Rows<'a, const LIMBS: usize> {
    digits: &'a [i8],
    windows: &'a [u64],
}

impl<'a, const LIMBS: usize> Rows<'a, LIMBS> {
    // w with place j of every row, each handed on as a part with its window's part.
    pub(crate) fn column(&self, w: Walk, j: usize) -> Walk
        requires limbs { 0 < LIMBS }
        requires place { j < 256 }
        requires count { w.additions + column_weight (slot_digit self.now.digits.now) (windowed_rows LIMBS self.now.digits.now self.now.windows.now) j < 2 ^ 64 }
        ensures sum { run result ≡ passed elements self.now.digits.now (window_entry LIMBS self.now.windows.now) (windowed_rows LIMBS self.now.digits.now self.now.windows.now) j (run w) }
        ensures doublings { result.doublings ≡ w.doublings }
    {
        let mut r = w;
        let windows = self.windows.chunks_exact(LIMBS);
        for (row, window) in self.digits.chunks_exact(256).zip(windows) {
            r = moved(r, row, window, j);
        }
        r
    }
}

// From the highest of so many places down: one doubling, the dynamic rows, then the static ones. It is handed four slices, as the claim `one-columns-walk` has them.
pub fn walk(
    digits: &[i8],
    windows: &[u64],
    static_digits: &[i8],
    tables: &[u64],
    places: usize,
) -> Walk
    ensures { result ≡ walked digits.now windows.now static_digits.now tables.now places }
{
    let dynamic_rows: Rows<'_, 32> = Rows { digits, windows };
    let static_rows: Rows<'_, 256> = Rows {
        digits: static_digits,
        windows: tables,
    };
    let mut w = Walk {
        element: residue::identity(),
        additions: 0,
        doublings: 0,
    };
    for j in (0..places.min(256)).rev() {
        let doubled = Walk {
            element: residue::twice(w.element),
            doublings: w.doublings + 1,
            ..w
        };
        let u = dynamic_rows.column(doubled, j);
        w = static_rows.column(u, j);
    }
    w
}
