// Counts of lent lists, and what calls ask of one list, each after its sentence in document 01's table of numbers.
#![tactic(auto)]

ghost use Rattle.std.specs.Prelude.{◌≡◌, min};
ghost use Rattle.rules.specs.Windows.{any_over};
ghost use Rattle.rules.specs.Lists.{not_in, beyond_most, pairs, any_big};

// 2: the most scalars, points or slots.
pub const MOST: usize = 1024;

// 2: the most static points.
pub const MOST_STATIC: usize = 64;

// 6: the highest byte of 2^255 - 1.
const TOP: u8 = 127;

// 1: whether a list is not in units.
#[tactic(auto, unfolding(rules::specs::Lists::not_in))]
pub fn not_whole(len: usize, unit: usize) -> bool
    ensures { result ≡ not_in unit len }
{
    !len.is_multiple_of(unit)
}

// 2: whether a list holds over the limit of units.
#[tactic(auto, unfolding(rules::specs::Lists::beyond_most))]
pub fn too_many(len: usize, unit: usize, limit: usize) -> bool
    ensures { result ≡ beyond_most limit unit len }
{
    if unit == 0 {
        return false;
    }
    limit < len / unit
}

// The smaller of two counts: the library's `min`, under the name of the claim `one-lent-smaller`.
pub fn smaller(a: usize, b: usize) -> usize
    ensures { result ≡ min a b }
{
    a.min(b)
}

// m, the smaller of the two counts.
#[tactic(auto, unfolding(rules::specs::Lists::pairs))]
pub fn pairs(scalars: &[u8], points: &[u64]) -> usize
    ensures { result ≡ pairs scalars.now points.now }
{
    smaller(scalars.len() / 32, points.len() / 4)
}

// 6: whether a scalar is at or above 2^255.
pub fn any_big(scalars: &[u8]) -> bool
    ensures { result ≡ any_big scalars.now }
{
    scalars.as_chunks::<32>().0.iter().any(|s| TOP < s[31])
}

// 7 or 10: whether an element of flat limbs is at or above L.
pub fn any_over(limbs: &[u64]) -> bool
    ensures { result ≡ any_over limbs.now }
{
    (0..limbs.len() / 4).any(|i| residue::over(flat::element_at(limbs, i)))
}
