// The row readers: a row turned back into the 32 bytes of its scalar.
#![tactic(auto)]

ghost use Rattle.std.specs.Prelude.{◌≡◌, ◌+◌, ◌-◌, ◌*◌, ◌^◌};
ghost use Rattle.rules.specs.Values.{value_of, element_of};
ghost use Rattle.rules.specs.Numbers.{as_number};
ghost use Rattle.rules.specs.Results.{as_row, as_scalar_bytes};
ghost use Rattle.rules.specs.Rows.{read_naf, read_radix};
ghost use Rattle.laws.specs.DigitsSum.{plus, minus};
ghost use Rattle.reader.specs.Readers.{shape_refusal, compared_rows};
ghost use Rattle.reader.specs.Sums.{Whole, Says, SaysBytes};

use digit::magnitude;
use rules::{Element, Refusal};

// A number of one limb.
fn one_limb(n: u64) -> Element
    ensures { result ≡ record { l0 = n; l1 = 0; l2 = 0; l3 = 0 } }
{
    Element {
        l0: n,
        l1: 0,
        l2: 0,
        l3: 0,
    }
}

// A number doubled w times, modulo 2^256.
fn doubled(q: Element, w: usize) -> Element
    requires { Whole q }
    ensures { result ≡ element_of (2 ^ w * value_of q) }
{
    let mut r = q;
    for _ in 0..w {
        r = limbs::sum(r, r).element;
    }
    r
}

// A number with a digit added or taken away, modulo 2^256.
fn with_digit(q: Element, d: i8) -> Element
    ensures { result ≡ element_of (value_of q + 2 ^ 256 + plus d - minus d) }
{
    let x = one_limb(magnitude(d) as u64);
    if d < 0 {
        limbs::difference(q, x).element
    } else {
        limbs::sum(q, x).element
    }
}

// By index: over `iter().rev()` it was tried, and the proof did not close.
// What a row sums to modulo 2^256, each digit weighing 2^w times the one below it.
fn row_sum(row: &[i8], w: usize) -> Element
    ensures { Says w row.now result }
{
    let mut q = one_limb(0);
    for i in (0..row.len()).rev() {
        q = with_digit(doubled(q, w), row[i]);
    }
    q
}

// The 32 bytes of what a row sums to.
fn row_bytes(row: &[i8], w: usize) -> [u8; 32]
    ensures { SaysBytes w row.now result }
{
    let limbs = flat::array(row_sum(row, w));
    words::bytes(&limbs)
}

// What a reader asks of its row and width, and the refusal where it is not so. The tests of the width are those of `recode_refusal`.
fn shape_refusal(row: &[i8], long: usize, low: usize, w: usize) -> Result<(), Refusal>
    ensures { as_number result ≡ shape_refusal long low row.now w }
{
    if row.len() != long {
        return Err(Refusal::NotWhole);
    }
    if w < low {
        return Err(Refusal::BadWidth);
    }
    if 8 < w {
        return Err(Refusal::BadWidth);
    }
    Ok(())
}

// The bytes that a row sums to, where they are recoded and their row, again, is that row.
fn compared<const N: usize>(
    row: &[i8],
    again: Result<[i8; N], Refusal>,
    bytes: [u8; 32],
) -> Result<[u8; 32], Refusal>
    ensures { as_scalar_bytes result ≡ compared_rows row.now (as_row N again.entry).number (as_row N again.entry).row bytes }
{
    let Ok(recoded) = again else {
        return Err(Refusal::BadDigit);
    };
    if recoded.as_slice() != row {
        return Err(Refusal::BadDigit);
    }
    Ok(bytes)
}

// The scalar below 2^255 that has a NAF row of width w.
// A function for both readers would be handed the recoding and its law, and be no plainer than the two.
pub fn read_naf(row: &[i8], w: usize) -> Result<[u8; 32], Refusal>
    ensures { as_scalar_bytes result ≡ read_naf row.now w }
{
    shape_refusal(row, 256, 2, w)?;
    let bytes = row_bytes(row, 1);
    compared(row, scalar::non_adjacent_form(&bytes, w), bytes)
}

// The scalar below 2^255 that has a radix 2^w row.
pub fn read_radix(row: &[i8], w: usize) -> Result<[u8; 32], Refusal>
    ensures { as_scalar_bytes result ≡ read_radix row.now w }
{
    shape_refusal(row, 64, 4, w)?;
    let bytes = row_bytes(row, w);
    compared(row, radix::as_radix_2w(&bytes, w), bytes)
}
