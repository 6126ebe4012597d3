// The radix 2^w rows of a scalar.
#![tactic(auto)]

ghost use Rattle.std.specs.Prelude.{◌≡◌, ◌+◌, ◌/◌, ◌%◌, ◌≤◌, ◌<◌, take, pos};
ghost use Rattle.std.proofs.Math.IntN.{sub_ℕ};
ghost use Rattle.rules.specs.Values.{number};
ghost use Rattle.rules.specs.Results.{as_row};
ghost use Rattle.rules.specs.Rows.{used_places, radix_of, radix_row, radix_row_of};
ghost use Rattle.radix.specs.Nibbles.{Nibbles};

use rules::Refusal;

// The places that radix 2^w uses: 64, 52, 43, 37, 33 for w = 4 to 8.
#[tactic(auto, unfolding(rules::specs::Rows::used_places))]
pub fn to_radix_2w_size_hint(w: usize) -> usize
    ensures { result ≡ used_places w }
{
    match w {
        0 => 1,
        4 => 64,
        _ => 256 / w + 1,
    }
}

// The low four bits of a byte.
fn bot_half(x: u8) -> i8
    ensures { result ≡ pos (x % 16) }
{
    (x & 15) as i8
}

// The high four bits of a byte.
fn top_half(x: u8) -> i8
    ensures { result ≡ pos (x / 16 % 16) }
{
    (x >> 4) as i8
}

// The first 32 bytes as 64 digits from 0 to 15.
fn nibbles(scalar: &[u8]) -> [i8; 64]
    ensures { Nibbles result (number 256 (take 32 scalar.now)) }
{
    let mut output = [0i8; 64];
    for i in 0..32 {
        let x = words::byte_at(scalar, i);
        output[2 * i] = bot_half(x);
        output[2 * i + 1] = top_half(x);
    }
    output
}

// The radix-16 row: the last digit takes its carry and is not recentred.
fn radix_16(scalar: &[u8]) -> [i8; 64]
    ensures { result ≡ radix_row 4 (number 256 (take 32 scalar.now)) }
{
    let mut output = nibbles(scalar);
    for i in 0..63 {
        let carry = (output[i] + 8) >> 4;
        output[i] -= carry << 4;
        output[i + 1] += carry;
    }
    output
}

// A coefficient less what is carried out of it, in i64 and then i8.
fn digit(coef: u64, carried: u64) -> i8
    requires { (coef < 512) × ((carried ≤ coef + 128) × (coef < carried + 128)) }
    ensures { result ≡ sub_ℕ coef carried }
{
    ((coef as i64) - (carried as i64)) as i8
}

// The radix 2^w row for w = 5 to 8: the last place takes its carry and is not recentred.
fn radix_2w(scalar: &[u8], w: usize) -> [i8; 64]
    requires { (5 ≤ w) × (w ≤ 8) }
    ensures { result ≡ radix_row w (number 256 (take 32 scalar.now)) }
{
    let x_u64 = bits::five_words(scalar);
    let radix = bits::power(w);
    let last = to_radix_2w_size_hint(w) - 1;
    let mut carry: u64 = 0;
    let mut digits = [0i8; 64];
    for i in 0..last {
        let coef = carry + bits::bit_buf(x_u64, i * w, w);
        carry = (coef + radix / 2) >> w;
        digits[i] = digit(coef, carry << w);
    }
    let coef = carry + bits::bit_buf(x_u64, last * w, w);
    digits[last] = digit(coef, 0);
    digits
}

// The radix 2^w row of the first 32 bytes for the engines, zeros at a width outside 4 to 8.
#[tactic(auto, unfolding(rules::specs::Rows::radix_row_of, rules::specs::Rows::width_off))]
pub fn radix_row(scalar: &[u8], w: usize) -> [i8; 64]
    ensures { result ≡ radix_row_of scalar.now w }
{
    match w {
        4 => radix_16(scalar),
        5..=8 => radix_2w(scalar, w),
        _ => [0; 64],
    }
}

// The radix 2^w row of a scalar. `scalar::non_adjacent_form` has the same two lines: one function that is handed the row's maker would be no shorter.
pub fn as_radix_2w(scalar: &[u8], w: usize) -> Result<[i8; 64], Refusal>
    ensures { as_row 64 result ≡ radix_of scalar.now w }
{
    bits::recode_refusal(scalar, 4, w)?;
    Ok(radix_row(scalar, w))
}

// The radix-16 row of a scalar.
pub fn as_radix_16(scalar: &[u8]) -> Result<[i8; 64], Refusal>
    ensures { as_row 64 result ≡ radix_of scalar.now 4 }
{
    as_radix_2w(scalar, 4)
}
