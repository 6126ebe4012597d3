// A small launcher to copy: a batch is prepared, edited, read back, and totalled after the last edit.
#![tactic(auto)]

use batch::{POINT_LIMBS, SCALAR_BYTES, SLOT_DIGITS, SLOT_LIMBS};
use room::parts;
use rules::{Counts, Refusal};
use std::fmt;

// The orders of the story are three.
const ORDERS: usize = 3;

// Where the number of orders is known at run time only, there is memory for this many.
const ROOM: usize = 8;

// The scalars of the three orders are 2, 5 and 11.
fn scalars() -> [u8; ORDERS * SCALAR_BYTES] {
    let mut list = [0u8; ORDERS * SCALAR_BYTES];
    list[0] = 2;
    list[SCALAR_BYTES] = 5;
    list[2 * SCALAR_BYTES] = 11;
    list
}

// A small scalar is its lowest byte. `sheet` has the same, since this file is made to be copied and stands alone.
fn scalar(k: u8) -> [u8; SCALAR_BYTES] {
    let mut bytes = [0u8; SCALAR_BYTES];
    bytes[0] = k;
    bytes
}

// A number of four limbs, as the library hands it back.
#[derive(Clone, Copy)]
struct Number([u64; POINT_LIMBS]);

// It is written in decimal where it fits one limb, and else as 64 hex digits, highest first.
impl fmt::Display for Number {
    fn fmt<W: fmt::Write>(&self, f: &mut fmt::Formatter<W>) -> fmt::Result {
        match self.0 {
            [a, 0, 0, 0] => write!(f, "{a}"),
            [a, b, c, d] => write!(f, "{d:016x}{c:016x}{b:016x}{a:016x}"),
        }
    }
}

// Why there is no total: preparing or an edit was refused, or the memory is no batch.
#[derive(Clone, Copy)]
enum NoTotal {
    Refused,
    NoBatch,
}

impl fmt::Display for NoTotal {
    fn fmt<W: fmt::Write>(&self, f: &mut fmt::Formatter<W>) -> fmt::Result {
        f.write_str(match self {
            NoTotal::Refused => "a call was refused",
            NoTotal::NoBatch => "this memory is no batch",
        })
    }
}

// The number of a call is written: 0 where it is done, and else that of its refusal. What it took is left out.
fn done(rt: &impl Print, call: &str, answer: Result<Counts, Refusal>) -> Result<(), Refusal> {
    let number = answer::number(&answer);
    let _ = println!(rt; "{call}: number {number}");
    answer.map(|_| ())
}

// The total is taken only where preparing and every edit were done.
fn total(ready: Result<(), Refusal>, digits: &[i8], windows: &[u64]) -> Result<Number, NoTotal> {
    ready.map_err(|_| NoTotal::Refused)?;
    let sum = batch::total(digits, windows).map_err(|_| NoTotal::NoBatch)?;
    Ok(Number(flat::array(sum.element)))
}

// The total is written, or why there is none.
fn report(rt: &impl Print, ready: Result<(), Refusal>, digits: &[i8], windows: &[u64]) {
    let _ = match total(ready, digits, windows) {
        Ok(sum) => println!(rt; "  total {sum}"),
        Err(why) => println!(rt; "  no total: {why}"),
    };
}

// A slot is read back: its row gives the scalar, and the first entry of its window is the point.
fn read_back(rt: &impl Print, digits: &[i8], windows: &[u64], slot: usize) {
    let Some(row) = digits.chunks_exact(SLOT_DIGITS).nth(slot) else {
        let _ = println!(rt; "  there is no such slot");
        return;
    };
    let Ok(bytes) = reader::read_naf(row, 5) else {
        let _ = println!(rt; "  no scalar has this row");
        return;
    };
    let scalar = Number(flat::array(words::element(&bytes)));
    let point = Number(flat::array(flat::element_at(windows, SLOT_LIMBS / POINT_LIMBS * slot)));
    let _ = println!(rt; "  scalar {scalar}, point {point}");
}

// The orders before the first whose point is missing can go, and they are counted.
fn waiting(flags: &[u8]) -> usize {
    flags.iter().take_while(|flag| **flag != 0).count()
}

// How many orders go is known at run time only: the first n of each list and of the memory are lent.
fn launch(rt: &impl Print, scalars: &[u8], points: &[u64], flags: &[u8]) {
    let n = waiting(flags);
    let s = parts::first_units(scalars, SCALAR_BYTES, n);
    let p = parts::first_units(points, POINT_LIMBS, n);
    let f = parts::first_units(flags, 1, n);
    let mut digits = [0i8; ROOM * SLOT_DIGITS];
    let mut windows = [0u64; ROOM * SLOT_LIMBS];
    let d = parts::first_units_mut(&mut digits, SLOT_DIGITS, n);
    let w = parts::first_units_mut(&mut windows, SLOT_LIMBS, n);
    let prepared = batch::prepare(s, p, f, d, w);
    let ready = done(rt, "prepare the orders that have their points", prepared);
    report(rt, ready, d, w);
}

// Three orders are prepared and edited, an edit is refused and mended, and in the end as many go as have their points.
fn main(rt: HostRuntime) {
    let points = [3u64, 0, 0, 0, 7, 0, 0, 0, 13, 0, 0, 0];
    let flags = [1u8; ORDERS];
    let mut digits = [0i8; ORDERS * SLOT_DIGITS];
    let mut windows = [0u64; ORDERS * SLOT_LIMBS];
    let prepared = batch::prepare(&scalars(), &points, &flags, &mut digits, &mut windows);
    let ready = done(&rt, "prepare three orders", prepared);
    report(&rt, ready, &digits, &windows);

    let one = flat::element_at(&[1u64, 0, 0, 0], 0);
    let edited = batch::set(&mut digits, &mut windows, 1, &scalar(1), Some(one));
    let ready = ready.and(done(&rt, "set slot 1 to scalar 1 and point 1", edited));
    report(&rt, ready, &digits, &windows);

    let cleared = batch::clear(&mut digits, &mut windows, 0);
    let ready = ready.and(done(&rt, "clear slot 0", cleared));
    report(&rt, ready, &digits, &windows);

    // A refused edit writes nothing, and there is no total until it is mended.
    let digits_before = digits;
    let windows_before = windows;
    let point = Some(residue::negative(one));
    let refused = batch::set(&mut digits, &mut windows, 3, &scalar(4), point);
    let accepted = done(&rt, "set slot 3, which the batch has not", refused);
    report(&rt, ready.and(accepted), &digits, &windows);
    if digits == digits_before && windows == windows_before {
        let _ = println!(&rt; "  nothing changed");
    }

    let mended = batch::set(&mut digits, &mut windows, 2, &scalar(4), point);
    let ready = ready.and(done(&rt, "set slot 2 to scalar 4 and point L - 1", mended));
    report(&rt, ready, &digits, &windows);
    read_back(&rt, &digits, &windows, 2);

    launch(&rt, &scalars(), &points, &[1u8, 1, 0]);
}
