// The bench sheet: runs its unstarred cases and prints `name number result`.
#![tactic(auto)]

use batch::{POINT_LIMBS, SCALAR_BYTES, SLOT_DIGITS, SLOT_LIMBS};
use rules::{Counts, Element, Refusal, Walk};
use std::fmt;

// L, the group's order.
fn order() -> [u64; POINT_LIMBS] {
    flat::array(residue::order())
}

// A scalar of one byte.
fn scalar(k: u8) -> [u8; SCALAR_BYTES] {
    let mut bytes = [0u8; SCALAR_BYTES];
    bytes[0] = k;
    bytes
}

// Two scalars of one byte each.
fn two_scalars(j: u8, k: u8) -> [u8; 2 * SCALAR_BYTES] {
    let mut list = [0u8; 2 * SCALAR_BYTES];
    list[0] = j;
    list[SCALAR_BYTES] = k;
    list
}

// Four limbs, written as 64 hex digits, lowest byte first.
#[derive(Clone, Copy)]
struct Hex([u64; POINT_LIMBS]);

impl fmt::Display for Hex {
    fn fmt<W: fmt::Write>(&self, f: &mut fmt::Formatter<W>) -> fmt::Result {
        let limbs = self.0;
        for byte in words::bytes(&limbs) {
            write!(f, "{byte:02x}")?;
        }
        Ok(())
    }
}

// One line: the case's name, the number, the result.
fn line(rt: &impl Print, name: &str, number: u8, value: [u64; POINT_LIMBS]) {
    let _ = println!(rt; "{name} {number} {}", Hex(value));
}

// The line of a sum.
fn sum(rt: &impl Print, name: &str, r: Result<Walk, Refusal>) {
    let r = answer::of_sum(r);
    line(rt, name, r.number, r.value);
}

// The line of NAF Straus on up to two pairs.
fn naf_straus(rt: &impl Print, name: &str, scalars: &[u8], points: &[u64], flags: &[u8]) {
    let mut digits = [0i8; 2 * SLOT_DIGITS];
    let mut limbs = [0u64; 2 * SLOT_LIMBS];
    sum(
        rt,
        name,
        straus::optional_multiscalar_mul(scalars, points, flags, &mut digits, &mut limbs),
    );
}

// E3: no pairs.
fn e3(rt: &impl Print) {
    let scalars = [0u8; 0];
    let points = [0u64; 0];
    let flags = [0u8; 0];
    naf_straus(rt, "E3", &scalars, &points, &flags);
}

// E4: (L, 1).
fn e4(rt: &impl Print) {
    let scalars = words::bytes(&order());
    let points = [1u64, 0, 0, 0];
    let flags = [1u8];
    naf_straus(rt, "E4", &scalars, &points, &flags);
}

// E5: (1, 1) twice.
fn e5(rt: &impl Print) {
    let scalars = two_scalars(1, 1);
    let points = [1u64, 0, 0, 0, 1, 0, 0, 0];
    let flags = [1u8, 1];
    naf_straus(rt, "E5", &scalars, &points, &flags);
}

// E6: scalars 2, 5 and point 3.
fn e6(rt: &impl Print) {
    let scalars = two_scalars(2, 5);
    let points = [3u64, 0, 0, 0];
    let flags = [1u8];
    naf_straus(rt, "E6", &scalars, &points, &flags);
}

// E7: scalar 2, points 3 and absent: NAF Straus, then Pippenger.
fn e7(rt: &impl Print) {
    let scalars = scalar(2);
    let points = [3u64, 0, 0, 0, 0, 0, 0, 0];
    let flags = [1u8, 0];
    naf_straus(rt, "E7a", &scalars, &points, &flags);
    let mut digits = [0i8; 64];
    let mut buckets = [0u64; 128];
    sum(
        rt,
        "E7b",
        pippenger::optional_multiscalar_mul(&scalars, &points, &flags, &mut digits, &mut buckets),
    );
}

// E8: scalar 2^255 with point 1, then scalar 1 with point L.
fn e8(rt: &impl Print) {
    let mut scalars = [0u8; SCALAR_BYTES];
    scalars[SCALAR_BYTES - 1] = 128;
    let points = [1u64, 0, 0, 0];
    let flags = [1u8];
    naf_straus(rt, "E8a", &scalars, &points, &flags);
    let scalars = scalar(1);
    let points = order();
    naf_straus(rt, "E8b", &scalars, &points, &flags);
}

// E9: double base a = 2, A = 3, b = 4.
fn e9(rt: &impl Print) {
    let point = [3u64, 0, 0, 0];
    sum(
        rt,
        "E9",
        vartime_double_base::mul(&scalar(2), &point, &scalar(4)),
    );
}

// The pair (1, 1) in a slot of a batch.
fn set_one(digits: &mut [i8], windows: &mut [u64], slot: usize) -> Result<Counts, Refusal> {
    let one = Element {
        l0: 1,
        l1: 0,
        l2: 0,
        l3: 0,
    };
    batch::set(digits, windows, slot, &scalar(1), Some(one))
}

// B1a: the pairs of E1 prepared, and slot 1 set to (1, 1).
fn b1a(digits: &mut [i8], windows: &mut [u64]) -> Result<Walk, Refusal> {
    let scalars = two_scalars(2, 5);
    let points = [3u64, 0, 0, 0, 7, 0, 0, 0];
    let flags = [1u8, 1];
    batch::prepare(&scalars, &points, &flags, digits, windows)?;
    set_one(digits, windows, 1)?;
    batch::total(digits, windows)
}

// B1b: slot 0 of that batch cleared.
fn b1b(digits: &mut [i8], windows: &mut [u64]) -> Result<Walk, Refusal> {
    batch::clear(digits, windows, 0)?;
    batch::total(digits, windows)
}

// B1: one batch of two slots, edited; B1c sets slot 2, which it has not.
fn b1(rt: &impl Print) {
    let mut digits = [0i8; 2 * SLOT_DIGITS];
    let mut windows = [0u64; 2 * SLOT_LIMBS];
    sum(rt, "B1a", b1a(&mut digits, &mut windows));
    sum(rt, "B1b", b1b(&mut digits, &mut windows));
    let edited = answer::of_counts(set_one(&mut digits, &mut windows, 2));
    line(rt, "B1c", edited.number, [0u64; POINT_LIMBS]);
}

fn main(rt: HostRuntime) {
    e3(&rt);
    e4(&rt);
    e5(&rt);
    e6(&rt);
    e7(&rt);
    e8(&rt);
    e9(&rt);
    b1(&rt);
}
