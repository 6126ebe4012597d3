// Buckets of four limbs each: how many a width needs, a point put into one by its digit, and their sum.
// The buckets are a slice that is lent on from call to call, and their count stands beside it: a struct of both would hold the same bound and lend the slice on through a field.
ghost use Rattle.std.specs.Prelude.{◌≡◌, ◌+◌, ◌-◌, ◌*◌, ◌^◌, ◌<◌, ◌≤◌, length, nat_abs};
ghost use Rattle.rules.specs.Values.{element_at};
ghost use Rattle.rules.specs.Group.{elements};
ghost use Rattle.rules.specs.Loops.{nonzero};
ghost use Rattle.rules.specs.Rows.{digit};
ghost use Rattle.laws.specs.Buckets.{bucket_sum};
ghost use Rattle.pippenger.specs.Flat.{replaced, put_flat};

use rules::Element;

// A sum, and the additions made for it.
#[derive(Clone, Copy)]
pub(crate) struct Summed {
    pub(crate) element: Element,
    pub(crate) additions: u64,
}

// The buckets that digits of this width need, one for each absolute value but 0: 128 at w = 8, half as many for each bit less.
pub(crate) fn buckets_count(w: usize) -> usize
    requires { (6 ≤ w) × (w ≤ 8) }
    ensures { result ≡ 2 ^ (w - 1) }
{
    128usize >> (8 - w)
}

// An element into its four limbs.
fn store(limbs: &mut [u64], k: usize, e: Element)
    requires { 4 * k + 4 ≤ length limbs.old }
    ensures { limbs.new ≡ replaced limbs.old k e }
{
    // One write a limb: copied from an array they take a fifth more instructions in a column, measured.
    let a = 4 * k;
    limbs[a] = e.l0;
    limbs[a + 1] = e.l1;
    limbs[a + 2] = e.l2;
    limbs[a + 3] = e.l3;
}

// A point into bucket |d| - 1 by its row's digit d at place j: added, or taken away where d is negative. Additions made.
pub(crate) fn put(row: &[i8], j: usize, p: Element, buckets: &mut [u64]) -> u64
    requires { (j < length row.now) × (4 * nat_abs (digit row.now j) ≤ length buckets.old) }
    ensures { (result ≡ nonzero (digit row.now j)) × (buckets.new ≡ put_flat (digit row.now j) p buckets.old) }
{
    let d = row[j];
    if d == 0 {
        return 0;
    }
    let k = digit::magnitude(d) - 1;
    let b = flat::element_at(buckets, k);
    if d < 0 {
        store(&mut *buckets, k, residue::minus(b, p));
        return 1;
    }
    store(&mut *buckets, k, residue::plus(b, p));
    1
}

// The buckets, each as often as its number says: the sum of the running sums from the last bucket down.
pub(crate) fn sum_buckets(buckets: &[u64], n: usize) -> Summed
    requires { (1 < n) × (4 * n ≤ length buckets.now) }
    ensures { (result.element ≡ bucket_sum elements (element_at buckets.now) (n - 1)) × (result.additions ≡ 2 * (n - 1)) }
{
    let mut buckets_intermediate_sum = flat::element_at(buckets, n - 1);
    let mut buckets_sum = buckets_intermediate_sum;
    let mut additions: u64 = 0;
    for i in (0..n - 1).rev() {
        buckets_intermediate_sum = residue::plus(
            buckets_intermediate_sum,
            flat::element_at(buckets, i),
        );
        buckets_sum = residue::plus(buckets_sum, buckets_intermediate_sum);
        additions += 2;
    }
    Summed {
        element: buckets_sum,
        additions,
    }
}
