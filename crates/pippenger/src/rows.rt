// Radix rows beside their points: a column, and the walk down the columns.
ghost use Rattle.std.specs.Prelude.{◌≡◌, ◌*◌, ◌<◌, ◌≤◌, length};
ghost use Rattle.rules.specs.Values.{element_at};
ghost use Rattle.rules.specs.Group.{elements};
ghost use Rattle.laws.specs.Weight.{column_weight};
ghost use Rattle.laws.specs.Cells.{digit_at, Placed};
ghost use Rattle.laws.specs.BucketWalk.{ColumnMade, Walkable, Walked};
ghost use Rattle.pippenger.specs.Flat.{put_rows};

use crate::buckets::{Summed, buckets_count, put, sum_buckets};
use rules::Walk;

// Rows of 64 digits, m of them in lent room that may be longer, and a point for each. The count m stands beside the lists, as in `Placed` and `Walkable` of `laws`.
#[derive(Clone, Copy)]
pub(crate) struct Rows<'a> {
    pub(crate) digits: &'a [i8],
    pub(crate) points: &'a [u64],
    pub(crate) m: usize,
}

impl<'a> Rows<'a> {
    // The points of a column into their buckets, each by its row's digit at place j. Additions made.
    fn put_all(self, j: usize, buckets: &mut [u64]) -> u64
        requires { Placed 4 self.digits.now self.m j (length buckets.old) }
        ensures { (result ≡ column_weight (digit_at self.entry.digits.now) self.entry.m j) × (buckets.new ≡ put_rows self.entry.digits.now self.entry.points.now j self.entry.m buckets.old) }
    {
        let digits = self.digits;
        let mut additions: u64 = 0;
        for i in 0..self.m {
            let a = 64 * i;
            let e = a + 64;
            additions += put(
                &digits[a..e],
                j,
                flat::element_at(self.points, i),
                &mut *buckets,
            );
        }
        additions
    }

    // One column: the buckets cleared, the points put, the buckets summed.
    fn column(self, j: usize, n: usize, buckets: &mut [u64]) -> Summed
        requires { Placed 4 self.digits.now self.m j (4 * n) × ((1 < n) × (4 * n ≤ length buckets.old)) }
        ensures { ColumnMade elements 4 self.entry.digits.now (element_at self.entry.points.now) self.entry.m j n buckets.old buckets.new result.element result.additions }
    {
        room::clear(&mut *buckets, 0, 4 * n);
        let put = self.put_all(j, &mut *buckets);
        let s = sum_buckets(buckets, n);
        Summed {
            element: s.element,
            additions: put + s.additions,
        }
    }

    // The high column as it is, and from the place below it down w doublings and that place's column.
    pub(crate) fn walk(self, w: usize, buckets: &mut [u64]) -> Walk
        requires { Walkable 4 self.digits.now self.m w (length buckets.old) }
        ensures { Walked elements 4 self.entry.digits.now (element_at self.entry.points.now) self.entry.m w buckets.old buckets.new result.element result.additions result.doublings }
    {
        let n = buckets_count(w);
        let c = radix::to_radix_2w_size_hint(w);
        let high = self.column(c - 1, n, &mut *buckets);
        let mut q = high.element;
        let mut additions = high.additions;
        let mut doublings: u64 = 0;
        for j in (0..c - 1).rev() {
            let col = self.column(j, n, &mut *buckets);
            q = residue::plus(residue::mul_by_pow_2(q, w), col.element);
            additions += col.additions + 1;
            doublings += w as u64;
        }
        Walk {
            element: q,
            additions,
            doublings,
        }
    }
}
