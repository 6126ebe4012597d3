// Prepared batches: a slot is 256 digits (NAF width 5) and 32 limbs (its window), in lent memory.
#![tactic(auto)]

ghost use Rattle.std.specs.Prelude.{◌≡◌, length};
ghost use Rattle.rules.specs.Results.{as_counted, as_sum};
ghost use Rattle.rules.specs.Batch.{memory_of, after_edit, prepare, edge_refusal, set_slot, clear_slot, total_of};
// The most slots of a batch, and the most scalars or points of a list: more are refused by 2.
pub use lent::MOST;
use rules::{Counts, Element, Refusal, Row, Walk, Window};

pub(crate) mod refusals;

// Digits of a slot: a NAF row of width 5.
pub const SLOT_DIGITS: usize = 256;

// Limbs of a slot: the window of its point, 1P, 3P, .. 15P.
pub const SLOT_LIMBS: usize = 32;

// Bytes of a scalar, lowest first.
pub const SCALAR_BYTES: usize = 32;

// Limbs of a point, lowest first.
pub const POINT_LIMBS: usize = 4;

// Every slot from its scalar and point.
pub fn prepare(
    scalars: &[u8],
    points: &[u64],
    flags: &[u8],
    digits: &mut [i8],
    windows: &mut [u64],
) -> Result<Counts, Refusal>
    ensures { after_edit (as_counted result) digits.new windows.new ≡ prepare scalars.now points.now flags.now (memory_of digits.old windows.old) }
{
    crate::refusals::prepare_refusal(scalars, points, flags, digits.len(), windows.len())?;
    let k = scalars.len() / SCALAR_BYTES;
    laying::rows(scalars, k, Row::Naf(5), &mut *digits);
    Ok(laying::windows(points, k, Window::Odd8, &mut *windows))
}

// One slot set to a scalar and a point: its row and its window are written, nothing else is read or touched.
// Digits and windows go on as two slices: a struct of both would be made in each public call, to be taken apart here.
fn set_point(
    digits: &mut [i8],
    windows: &mut [u64],
    slot: usize,
    scalar: &[u8],
    p: Element,
) -> Result<Counts, Refusal>
    requires { edge_refusal (length digits.old) (length windows.old) slot scalar.now ≡ 0 }
    ensures { after_edit (as_counted result) digits.new windows.new ≡ set_slot (memory_of digits.old windows.old) slot scalar.now (Some p) }
{
    if residue::over(p) {
        return Err(Refusal::BadPoint);
    }
    let row = SLOT_DIGITS * slot;
    let window = SLOT_LIMBS * slot;
    Ok(laying::fill_slot(
        scalar,
        p,
        &mut digits[row..row + SLOT_DIGITS],
        &mut windows[window..window + SLOT_LIMBS],
    ))
}

// One slot set to a scalar and an optional point.
pub fn set(
    digits: &mut [i8],
    windows: &mut [u64],
    slot: usize,
    scalar: &[u8],
    point: Option<Element>,
) -> Result<Counts, Refusal>
    ensures { after_edit (as_counted result) digits.new windows.new ≡ set_slot (memory_of digits.old windows.old) slot scalar.now point }
{
    crate::refusals::set_refusal(digits.len(), windows.len(), slot, scalar)?;
    let Some(p) = point else {
        return Err(Refusal::AbsentPoint);
    };
    set_point(&mut *digits, &mut *windows, slot, scalar, p)
}

// One slot set to scalar 0 and point 0.
pub fn clear(digits: &mut [i8], windows: &mut [u64], slot: usize) -> Result<Counts, Refusal>
    ensures { after_edit (as_counted result) digits.new windows.new ≡ clear_slot (memory_of digits.old windows.old) slot }
{
    let zero = [0u8; SCALAR_BYTES];
    let identity = Some(residue::identity());
    set(&mut *digits, &mut *windows, slot, &zero, identity)
}

// The sum over all slots as they stand.
pub fn total(digits: &[i8], windows: &[u64]) -> Result<Walk, Refusal>
    ensures { as_sum result ≡ total_of (memory_of digits.now windows.now) }
{
    crate::refusals::total_refusal(digits, windows)?;
    Ok(columns::walk(digits, windows, &digits[..0], &windows[..0], SLOT_DIGITS))
}
