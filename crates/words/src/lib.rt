// 32 bytes to four limbs and back, lowest first.
#![tactic(auto)]

ghost use Rattle.std.specs.Prelude.{◌≡◌, ℕ, ◌*◌, ◌/◌, ◌%◌, ◌^◌, ◌<◌, get_or, take, drop};
ghost use Rattle.rules.specs.Values.{number, places, limb, element_of, point_at};

use rules::Element;

// Byte k of a list, 0 past its end.
pub fn byte_at(bytes: &[u8], k: usize) -> u8
    ensures { result ≡ get_or bytes.now k 0 }
{
    bytes.get(k).copied().unwrap_or(0)
}

// The first 32 bytes of a list; bytes past its end are 0.
fn first_32(bytes: &[u8]) -> [u8; 32]
    ensures { (k : ℕ) → k < 32 → get_or result k 0 ≡ get_or bytes.now k 0 }
{
    let n = bytes.len().min(32);
    let mut first = [0u8; 32];
    first[..n].copy_from_slice(&bytes[..n]);
    first
}

// Limb i of what 32 bytes say: eight of them, lowest first.
fn limb_of(bytes: &[u8; 32], i: usize) -> u64
    requires { i < 4 }
    ensures { result ≡ number 256 (take 8 (drop (8 * i) bytes.now)) }
{
    u64::from_le_bytes(bytes.as_chunks::<8>().0[i])
}

// The first 32 bytes as four limbs; bytes past their end are 0.
pub fn element(bytes: &[u8]) -> Element
    ensures { result ≡ element_of (number 256 (take 32 bytes.now)) }
{
    let first = first_32(bytes);
    Element {
        l0: limb_of(&first, 0),
        l1: limb_of(&first, 1),
        l2: limb_of(&first, 2),
        l3: limb_of(&first, 3),
    }
}

// Byte k of a limb, 0 past its eight.
pub fn byte_of(x: u64, k: usize) -> u8
    ensures { result ≡ x / 2 ^ (8 * k) % 256 }
{
    byte_at(&x.to_le_bytes(), k)
}

// The 32 bytes of the first four limbs; limbs past their end are 0.
pub fn bytes(list: &[u64]) -> [u8; 32]
    ensures { result ≡ places 256 32 (point_at list.now 0) }
{
    let x = flat::array(flat::element_at(list, 0));
    std::array::from_fn(|k| byte_of(x[k / 8], k % 8))
}
