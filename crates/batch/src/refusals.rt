// What the calls on a batch ask.
ghost use Rattle.std.specs.Prelude.{◌≡◌};
ghost use Rattle.rules.specs.Numbers.{as_number, first};
ghost use Rattle.rules.specs.Lists.{wild_digit, any_wild};
ghost use Rattle.rules.specs.Batch.{memory_of, memory_asked, prepare_refusal, edge_refusal, total_refusal};

use crate::{MOST, POINT_LIMBS, SCALAR_BYTES, SLOT_DIGITS, SLOT_LIMBS};
use rules::Refusal;

// 1 and 2 of prepared memory.
pub(crate) fn memory(digits: usize, windows: usize) -> Result<(), Refusal>
    ensures { as_number result ≡ first (memory_asked digits windows) }
{
    if lent::not_whole(digits, SLOT_DIGITS) | (windows != SLOT_LIMBS * (digits / SLOT_DIGITS)) {
        return Err(Refusal::NotWhole);
    }
    if lent::too_many(digits, SLOT_DIGITS, MOST) {
        return Err(Refusal::TooMany);
    }
    Ok(())
}

// The lists are handed on one by one, as to `asks`, where the reason stands.
// What preparing asks, and the refusal where it is not so.
pub(crate) fn prepare_refusal(
    scalars: &[u8],
    points: &[u64],
    flags: &[u8],
    digits: usize,
    windows: usize,
) -> Result<(), Refusal>
    ensures { as_number result ≡ prepare_refusal scalars.now points.now flags.now digits windows }
{
    asks::lists(scalars, points, flags)?;
    let n = scalars.len() / SCALAR_BYTES;
    if (digits != SLOT_DIGITS * n) | (windows != SLOT_LIMBS * n) {
        return Err(Refusal::BadRoom);
    }
    asks::contents(scalars, points, flags, points.len() / POINT_LIMBS)?;
    if n != points.len() / POINT_LIMBS {
        return Err(Refusal::Unequal);
    }
    Ok(())
}

// What an edit asks before it looks at the point.
pub(crate) fn set_refusal(
    digits: usize,
    windows: usize,
    slot: usize,
    scalar: &[u8],
) -> Result<(), Refusal>
    ensures { as_number result ≡ edge_refusal digits windows slot scalar.now }
{
    if scalar.len() != SCALAR_BYTES {
        return Err(Refusal::NotWhole);
    }
    memory(digits, windows)?;
    if digits / SLOT_DIGITS <= slot {
        return Err(Refusal::NoSlot);
    }
    if lent::any_big(scalar) {
        return Err(Refusal::BigScalar);
    }
    Ok(())
}

// Whether a digit is neither 0 nor odd within -15 to 15. Most digits are 0, and for these the first test ends it.
fn wild(d: i8) -> bool
    ensures { result ≡ wild_digit d }
{
    let m = digit::magnitude(d);
    m != 0 && (m % 2 == 0 || 15 < m)
}

// 10: whether a prepared digit is so.
// The loop counts by hand, since `total_first_place_of_each_slot_only` makes it pass over places: in a chain or over a range that was refused for the form alone.
fn any_wild(digits: &[i8]) -> bool
    ensures { result ≡ any_wild digits.now }
{
    let mut i: usize = 0;
    while i < digits.len() {
        if wild(digits[i]) {
            return true;
        }
        i += 1;
    }
    false
}

// What a total asks.
pub(crate) fn total_refusal(digits: &[i8], windows: &[u64]) -> Result<(), Refusal>
    ensures { as_number result ≡ total_refusal (memory_of digits.now windows.now) }
{
    memory(digits.len(), windows.len())?;
    if any_wild(digits) {
        return Err(Refusal::BadDigit);
    }
    if lent::any_over(windows) {
        return Err(Refusal::BadDigit);
    }
    Ok(())
}
