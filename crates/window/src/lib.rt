// Windows of a point.
#![tactic(auto)]

ghost use Rattle.std.specs.Prelude.{◌≡◌, ◌-◌, ◌*◌, ◌≤◌};
ghost use Rattle.rules.specs.Values.{point_at};
ghost use Rattle.rules.specs.Numbers.{window_answer};
ghost use Rattle.rules.specs.Group.{elements, residues};
ghost use Rattle.rules.specs.Windows.{stepped, odd, limbs_flat, point_refusal, lookup_table, naf_lookup_table5, naf_lookup_table8};
ghost use Rattle.rules.specs.Results.{as_window};
ghost use Rattle.rules.specs.Lists.{put, joined};
ghost use Rattle.rules.specs.Helpers.{elements_flat, made, made_successive, made_odd};

use rules::{Counts, Element, Refusal};

// N entries from p on, each from the one before by adding s. The additions are counted where they are made, beside the array: a struct of both would be taken apart at once. That N is at most 64 stands in each of these contracts, since a const parameter holds no invariant.
fn stepped<const N: usize>(p: Element, s: Element, additions: &mut u64) -> [[u64; 4]; N]
    requires size { (1 ≤ N) × (N ≤ 64) }
    requires none { additions.old ≡ 0 }
    ensures { (joined result ≡ elements_flat (stepped elements s p) N) × (additions.new ≡ N - 1) }
{
    let first = flat::array(p);
    let mut t = [first; N];
    let mut e = p;
    for i in 1..N {
        e = residue::plus(e, s);
        *additions += 1;
        t[i] = flat::array(e);
    }
    t
}

// N entries from p on, each from the one before by adding s, into their part of lent memory; s took so many doublings.
fn make<const N: usize>(p: Element, s: Element, doublings: u64, part: &mut [u64]) -> Counts
    requires { (1 ≤ N) × (N ≤ 64) }
    ensures additions { result.additions ≡ N - 1 }
    ensures doublings { result.doublings ≡ doublings }
    ensures window { part.new ≡ put (elements_flat (stepped elements s p) N) part.old }
{
    let mut additions: u64 = 0;
    let t = stepped::<N>(p, s, &mut additions);
    room::put(part, t.as_flattened());
    Counts {
        additions,
        doublings,
    }
}

// 1P to 8P into their part of lent memory.
#[tactic(auto, unfolding(rules::specs::Windows::successive, rules::specs::Helpers::made_successive))]
pub fn make_successive(p: Element, part: &mut [u64]) -> Counts
    ensures { made result part.new ≡ made_successive 8 p part.old }
{
    make::<8>(p, p, 0, part)
}

// 1P, 3P, .. with N entries, into their part of lent memory. The public names below are its instances: it asks that N is in range, and a public function asks nothing.
#[tactic(auto, unfolding(rules::specs::Windows::odd, rules::specs::Helpers::made_odd_in))]
fn make_odd<const N: usize>(p: Element, part: &mut [u64]) -> Counts
    requires { (1 ≤ N) × (N ≤ 64) }
    ensures { made result part.new ≡ made_odd N p part.old }
{
    let s = residue::twice(p);
    make::<N>(p, s, 1, part)
}

// Public functions are of one size each: over N they would ask that it is at most 64.
// 1P, 3P, .. 15P into their part of lent memory.
pub fn make_odd8(p: Element, part: &mut [u64]) -> Counts
    ensures { made result part.new ≡ made_odd 8 p part.old }
{
    make_odd::<8>(p, part)
}

// 1P, 3P, .. 127P into their part of lent memory.
pub fn make_odd64(p: Element, part: &mut [u64]) -> Counts
    ensures { made result part.new ≡ made_odd 64 p part.old }
{
    make_odd::<64>(p, part)
}

// The radix window of a lent point: as the NAF windows but for the maker, and no longer than a call that hands it on.
pub fn lookup_table(point: &[u64]) -> Result<[u64; 32], Refusal>
    ensures { as_window 8 result ≡ lookup_table point.now }
{
    group::point_refusal(point)?;
    let mut limbs = [0u64; 32];
    make_successive(flat::element_at(point, 0), &mut limbs);
    Ok(limbs)
}

// The NAF window of N entries of a lent point, in M limbs.
fn naf_lookup_table<const N: usize, const M: usize>(point: &[u64]) -> Result<[u64; M], Refusal>
    requires size { (1 ≤ N) × (N ≤ 64) }
    requires limbs { M ≡ 4 * N }
    ensures { as_window N result ≡ window_answer N (point_refusal point.now) (limbs_flat (odd residues (point_at point.now 0)) N) }
{
    group::point_refusal(point)?;
    let mut limbs = [0u64; M];
    make_odd::<N>(flat::element_at(point, 0), &mut limbs);
    Ok(limbs)
}

// README.md names both widths; each is one line over `naf_lookup_table`.
// The NAF window of width 5 of a lent point.
#[tactic(auto, unfolding(rules::specs::Windows::naf_lookup_table5))]
pub fn naf_lookup_table5(point: &[u64]) -> Result<[u64; 32], Refusal>
    ensures { as_window 8 result ≡ naf_lookup_table5 point.now }
{
    naf_lookup_table::<8, 32>(point)
}

// The NAF window of width 8 of a lent point.
#[tactic(auto, unfolding(rules::specs::Windows::naf_lookup_table8))]
pub fn naf_lookup_table8(point: &[u64]) -> Result<[u64; 256], Refusal>
    ensures { as_window 64 result ≡ naf_lookup_table8 point.now }
{
    naf_lookup_table::<64, 256>(point)
}
