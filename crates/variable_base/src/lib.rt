// Single base: a scalar times a point, radix 16.
#![tactic(auto)]

ghost use Rattle.std.specs.Prelude.{◌≡◌};
ghost use Rattle.rules.specs.Numbers.{as_number};
ghost use Rattle.rules.specs.Results.{as_sum};
ghost use Rattle.rules.specs.Engines.{single_refusal, single};
ghost use Rattle.variable_base.specs.Walked.{walked_down};

use rules::{Refusal, Walk};

// The last digit's entry, and from the place below it down four doublings and that digit's entry; by index, since over the digits from the last the invariant would have to speak of those already yielded.
fn walk(row: [i8; 64], window: &[u64]) -> Walk
    ensures { result ≡ walked_down row window.now }
{
    let first = residue::plus(residue::identity(), lookup::looked_up(window, row[63]));
    let mut w = Walk {
        element: first,
        additions: 1,
        doublings: 0,
    };
    for j in (0..63).rev() {
        let doubled = residue::mul_by_pow_2(w.element, 4);
        w = Walk {
            element: residue::plus(doubled, lookup::looked_up(window, row[j])),
            additions: w.additions + 1,
            doublings: w.doublings + 4,
        };
    }
    w
}

// What the call asks, and the refusal where it is not so.
fn refusal(point: &[u64], scalar: &[u8]) -> Result<(), Refusal>
    ensures { as_number result ≡ single_refusal point.now scalar.now }
{
    if (point.len() != 4) | (scalar.len() != 32) {
        return Err(Refusal::NotWhole);
    }
    asks::plain_contents(scalar, point)
}

// Counts of both parts are added here, as `rules::Walk` says.
// Single base.
pub fn mul(point: &[u64], scalar: &[u8]) -> Result<Walk, Refusal>
    ensures { as_sum result ≡ single point.now scalar.now }
{
    refusal(point, scalar)?;
    let mut window = [0u64; 32];
    let made = window::make_successive(flat::element_at(point, 0), &mut window);
    let row = radix::radix_row(scalar, 4);
    let w = walk(row, &window);
    Ok(Walk {
        element: w.element,
        additions: made.additions + w.additions,
        doublings: made.doublings + w.doublings,
    })
}
