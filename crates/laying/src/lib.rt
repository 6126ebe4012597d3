// Laying rows and windows into lent room, each made by value and copied into its part.
#![tactic(auto)]

ghost use Rattle.std.specs.Prelude.{◌≡◌};
ghost use Rattle.rules.specs.Lists.{put};
ghost use Rattle.rules.specs.Helpers.{row_places, row_of, laid_rows, window_entries, made, made_window, laid_windows, filled, filled_slot};

use rules::{Counts, Element, Row, Window};

// The places of a row. The kinds are arguments of `laid_rows` and `laid_windows` in `rules`, and are matched here and not in methods there: what two of these run stands in crates above `rules`, and a method would have to be public.
#[tactic(auto, unfolding(rules::specs::Helpers::row_places))]
fn places(kind: Row) -> usize
    ensures { result ≡ row_places kind }
{
    match kind {
        Row::Naf(_) => 256,
        Row::Radix(_) => 64,
    }
}

// The row of a scalar, into its part.
#[tactic(auto, unfolding(rules::specs::Helpers::row_of))]
fn row(scalar: &[u8], kind: Row, part: &mut [i8])
    ensures { part.new ≡ put (row_of kind scalar.now) part.old }
{
    match kind {
        Row::Naf(w) => room::put(part, &scalar::naf_row(scalar, w)),
        Row::Radix(w) => room::put(part, &radix::radix_row(scalar, w)),
    }
}

// The rows of the first n scalars that there are, as far as the room goes. The parts are cut by index: after a loop over parts that `chunks_exact_mut` lends nothing is known of the list.
pub fn rows(scalars: &[u8], n: usize, kind: Row, digits: &mut [i8])
    ensures { digits.new ≡ laid_rows kind scalars.now n digits.old }
{
    let unit = places(kind);
    let m = lent::smaller(lent::smaller(n, scalars.len() / 32), digits.len() / unit);
    for i in 0..m {
        let s = 32 * i;
        let a = unit * i;
        row(&scalars[s..s + 32], kind, &mut digits[a..a + unit]);
    }
}

// The entries of a window.
#[tactic(auto, unfolding(rules::specs::Helpers::window_entries))]
fn entries(kind: Window) -> usize
    ensures { result ≡ window_entries kind }
{
    match kind {
        Window::Successive8 | Window::Odd8 => 8,
        Window::Odd64 => 64,
    }
}

// The window of a point, into its part.
#[tactic(auto, unfolding(rules::specs::Helpers::made_window))]
fn window(p: Element, kind: Window, part: &mut [u64]) -> Counts
    ensures { made result part.new ≡ made_window kind p part.old }
{
    match kind {
        Window::Successive8 => window::make_successive(p, part),
        Window::Odd8 => window::make_odd8(p, part),
        Window::Odd64 => window::make_odd64(p, part),
    }
}

// The windows of the first n points that there are, as far as the room goes, in parts as in `rows`.
pub fn windows(points: &[u64], n: usize, kind: Window, limbs: &mut [u64]) -> Counts
    ensures { made result limbs.new ≡ laid_windows kind points.now n limbs.old }
{
    let unit = 4 * entries(kind);
    let m = lent::smaller(lent::smaller(n, points.len() / 4), limbs.len() / unit);
    let mut additions: u64 = 0;
    let mut doublings: u64 = 0;
    for i in 0..m {
        let a = unit * i;
        let made = window(flat::element_at(points, i), kind, &mut limbs[a..a + unit]);
        additions += made.additions;
        doublings += made.doublings;
    }
    Counts {
        additions,
        doublings,
    }
}

// The row (width 5) and the window of one slot, each into its part of lent memory.
#[tactic(auto, unfolding(rules::specs::Helpers::filled_slot))]
pub fn fill_slot(scalar: &[u8], point: Element, row: &mut [i8], window: &mut [u64]) -> Counts
    ensures { filled result row.new window.new ≡ filled_slot scalar.now point row.old window.old }
{
    let digits = scalar::naf_row(scalar, 5);
    room::put(row, &digits);
    window::make_odd8(point, window)
}
