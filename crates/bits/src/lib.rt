// What both recodings read of a scalar, its words and the bits that wait in them, and what they refuse.
#![tactic(auto)]

ghost use Rattle.std.specs.Prelude.{◌≡◌, ◌%◌, ◌^◌};
ghost use Rattle.rules.specs.Values.{limb};
ghost use Rattle.rules.specs.Helpers.{five_words, waiting_bits};

mod refusal;

pub use refusal::recode_refusal;

// The first 32 bytes as 64-bit words, lowest first; the fifth is 0.
#[tactic(auto, unfolding(rules::specs::Helpers::five_words))]
pub fn five_words(scalar: &[u8]) -> [u64; 5]
    ensures { result ≡ five_words scalar.now }
{
    let e = words::element(scalar);
    [e.l0, e.l1, e.l2, e.l3, 0]
}

// 2^w, 0 where it has no place in 64 bits.
pub fn power(w: usize) -> u64
    ensures { result ≡ 2 ^ w % limb }
{
    if w < 64 { 1u64 << w } else { 0 }
}

// The w bits that wait from bit pos on, out of a buffer of 64; 0 past bit 256, and for more than 8 bits.
pub fn bit_buf(x: [u64; 5], pos: usize, w: usize) -> u64
    ensures { result ≡ waiting_bits x pos w }
{
    if 256 < pos {
        return 0;
    }
    if 8 < w {
        return 0;
    }
    let window_mask = power(w) - 1;
    let u64_idx = pos / 64;
    let bit_idx = pos % 64;
    if bit_idx < 64 - w {
        (x[u64_idx] >> bit_idx) & window_mask
    } else {
        ((x[u64_idx] >> bit_idx) | (x[1 + u64_idx] << (64 - bit_idx))) & window_mask
    }
}
