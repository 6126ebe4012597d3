// Double base: aA + b * basepoint, rows of width 5 and 8.
#![tactic(auto)]

ghost use Rattle.std.specs.Prelude.{◌≡◌, length};
ghost use Rattle.rules.specs.Numbers.{as_number};
ghost use Rattle.rules.specs.Results.{as_sum};
ghost use Rattle.rules.specs.Engines.{double_refusal, start_place, double};

use rules::{Refusal, Walk};

pub(crate) mod basepoint;

// The start place: from place 255 down the first where either row is not 0, or 0.
// It stays a loop that yields its place by break, since document 01 names that form.
fn start(a: &[i8], b: &[i8]) -> usize
    requires { (length a.now ≡ 256) × (length b.now ≡ 256) }
    ensures { result ≡ start_place a.now b.now }
{
    let mut i: usize = 255;
    loop {
        if a[i] != 0 {
            break i;
        }
        if b[i] != 0 {
            break i;
        }
        if i == 0 {
            break 0;
        }
        i -= 1;
    }
}

// What the call asks, and the refusal where it is not so.
fn refusal(a: &[u8], point: &[u64], b: &[u8]) -> Result<(), Refusal>
    ensures { as_number result ≡ double_refusal a.now point.now b.now }
{
    if (a.len() != 32) | (point.len() != 4) | (b.len() != 32) {
        return Err(Refusal::NotWhole);
    }
    if lent::any_big(a) {
        return Err(Refusal::BigScalar);
    }
    asks::plain_contents(b, point)
}

// Counts of both parts are added here, as `rules::Walk` says.
// Double base.
pub fn mul(a: &[u8], point: &[u64], b: &[u8]) -> Result<Walk, Refusal>
    ensures { as_sum result ≡ double a.now point.now b.now }
{
    refusal(a, point, b)?;
    let a_naf = scalar::naf_row(a, 5);
    let b_naf = scalar::naf_row(b, 8);
    let i = start(&a_naf, &b_naf);
    let mut window = [0u64; 32];
    let made = window::make_odd8(flat::element_at(point, 0), &mut window);
    let w = crate::basepoint::walk(&a_naf, &window, &b_naf, i + 1);
    Ok(Walk {
        element: w.element,
        additions: made.additions + w.additions,
        doublings: made.doublings + w.doublings,
    })
}
