// Lookup in a window by a digit.
#![tactic(auto)]

ghost use Rattle.std.specs.Prelude.{◌≡◌, cond, ◌≤◌, pos};
ghost use Rattle.std.specs.Int.Signed.{lt_z};
ghost use Rattle.rules.specs.Group.{negated};
ghost use Rattle.rules.specs.Numbers.{as_number};
ghost use Rattle.rules.specs.Results.{as_value};
ghost use Rattle.rules.specs.Windows.{lookup_refusal, select, select_naf};
ghost use Rattle.rules.specs.Helpers.{looked_up};

use rules::{Element, Refusal};

// Entry number a, from 1, among the first eight: every entry is passed over; 0 and past them the identity.
fn passed(window: &[u64], a: usize) -> Element
    ensures { result ≡ looked_up 8 window.now (pos a) }
{
    let mut t = residue::identity();
    for j in 0..8 {
        let e = flat::element_at(window, j);
        if a == j + 1 {
            t = e;
        }
    }
    t
}

// An entry, negated for a negative digit.
fn by_sign(d: i8, e: Element) -> Element
    ensures { result ≡ cond (lt_z d (pos 0)) (negated e) e }
{
    if d < 0 { residue::negative(e) } else { e }
}

// Radix lookup among eight entries: entry |d| - 1, negated for negative d; 0 gives the identity.
pub fn looked_up(window: &[u64], d: i8) -> Element
    ensures { result ≡ looked_up 8 window.now d }
{
    by_sign(d, passed(window, digit::magnitude(d)))
}

// What a lookup in a window of n entries asks, and the refusal where it is not so: every entry is looked at.
fn lookup_refusal(window: &[u64], n: usize, outside: bool) -> Result<(), Refusal>
    requires { n ≤ 64 }
    ensures { as_number result ≡ lookup_refusal n outside window.now }
{
    if window.len() != 4 * n {
        return Err(Refusal::NotWhole);
    }
    if lent::any_over(window) | outside {
        return Err(Refusal::BadDigit);
    }
    Ok(())
}

// Radix lookup in a lent window.
pub fn select(window: &[u64], d: i8) -> Result<Element, Refusal>
    ensures { as_value result ≡ select window.now d }
{
    let a = digit::magnitude(d);
    lookup_refusal(window, 8, 8 < a)?;
    Ok(looked_up(window, d))
}

// NAF lookup in a lent window of n entries.
fn select_naf(window: &[u64], d: i8, n: usize) -> Result<Element, Refusal>
    requires { (1 ≤ n) × (n ≤ 64) }
    ensures { as_value result ≡ select_naf n window.now d }
{
    let a = digit::magnitude(d);
    lookup_refusal(window, n, (a % 2 == 0) | (2 * n - 1 < a))?;
    Ok(by_sign(d, flat::element_at(window, digit::odd_entry(d))))
}

// NAF lookup in a lent window of width 5. README.md names both widths.
pub fn select_naf5(window: &[u64], d: i8) -> Result<Element, Refusal>
    ensures { as_value result ≡ select_naf 8 window.now d }
{
    select_naf(window, d, 8)
}

// NAF lookup in a lent window of width 8.
pub fn select_naf8(window: &[u64], d: i8) -> Result<Element, Refusal>
    ensures { as_value result ≡ select_naf 64 window.now d }
{
    select_naf(window, d, 64)
}
