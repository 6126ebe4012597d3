// The non-adjacent form of a scalar: its row of digits.
#![tactic(auto)]

ghost use Rattle.std.specs.Prelude.{◌≡◌, ◌≤◌, take};
ghost use Rattle.rules.specs.Values.{number};
ghost use Rattle.rules.specs.Results.{as_row};
ghost use Rattle.rules.specs.Rows.{naf_of, naf_row, naf_row_of};
ghost use Rattle.scalar.specs.Wrap.{wrapped};

use rules::Refusal;

// A window narrowed to eight bits with wrap, less the width narrowed to eight bits with wrap: the form that document 01 names.
#[tactic(auto, unfolding(crate::specs::Wrap::wrapped))]
fn wrapping_digit(window: u64, width: u64) -> i8
    ensures { result ≡ wrapped window width }
{
    let narrowed = (window % 256) as u8;
    narrowed.wrapping_sub((width % 256) as u8).cast_signed()
}

// The digits of the non-adjacent form of width w.
// The loop counts by hand, since it goes on by one place after a digit 0 and by w places after another.
fn naf_digits(scalar: &[u8], w: usize) -> [i8; 256]
    requires { (2 ≤ w) × (w ≤ 8) }
    ensures { result ≡ naf_row w (number 256 (take 32 scalar.now)) }
{
    let mut naf = [0i8; 256];
    let x_u64 = bits::five_words(scalar);
    let width = bits::power(w);
    let mut pos: usize = 0;
    let mut carry: u64 = 0;
    while pos < 256 {
        let window = carry + bits::bit_buf(x_u64, pos, w);
        if window & 1 == 0 {
            pos += 1;
            continue;
        }
        if window < width / 2 {
            carry = 0;
            naf[pos] = wrapping_digit(window, 0);
        } else {
            carry = 1;
            naf[pos] = wrapping_digit(window, width);
        }
        pos += w;
    }
    naf
}

// The NAF row of the first 32 bytes for the engines, zeros at a width outside 2 to 8.
#[tactic(auto, unfolding(rules::specs::Rows::naf_row_of, rules::specs::Rows::width_off))]
pub fn naf_row(scalar: &[u8], w: usize) -> [i8; 256]
    ensures { result ≡ naf_row_of scalar.now w }
{
    match w {
        2..=8 => naf_digits(scalar, w),
        _ => [0; 256],
    }
}

// The NAF row of a scalar, width w.
pub fn non_adjacent_form(scalar: &[u8], w: usize) -> Result<[i8; 256], Refusal>
    ensures { as_row 256 result ≡ naf_of scalar.now w }
{
    bits::recode_refusal(scalar, 2, w)?;
    Ok(naf_row(scalar, w))
}
