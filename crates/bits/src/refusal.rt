// What a recoding of a scalar refuses.
ghost use Rattle.std.specs.Prelude.{◌≡◌};
ghost use Rattle.rules.specs.Numbers.{as_number};
ghost use Rattle.rules.specs.Rows.{recode_refusal};

use rules::Refusal;

// The highest byte of 2^255 - 1, the largest number that has a row. `lent` has its own bound, of scalars that engines take: requests move the two apart.
const TOP: u8 = 127;

// The two tests of the width stand in `reader::shape_refusal` too: a function for them would be no plainer.
// What a recoding of widths low to 8 asks, and the refusal where it is not so.
pub fn recode_refusal(scalar: &[u8], low: usize, w: usize) -> Result<(), Refusal>
    ensures { as_number result ≡ recode_refusal low scalar.now w }
{
    if scalar.len() != 32 {
        return Err(Refusal::NotWhole);
    }
    if w < low {
        return Err(Refusal::BadWidth);
    }
    if 8 < w {
        return Err(Refusal::BadWidth);
    }
    if TOP < scalar[31] {
        return Err(Refusal::BigScalar);
    }
    Ok(())
}
