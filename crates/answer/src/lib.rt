// Answers in numbers, for programs that print them: what a done call carries, and the zeros that a refused one does.
#![tactic(auto)]

ghost use Rattle.std.specs.Prelude.{◌≡◌};
ghost use Rattle.rules.specs.Numbers.{as_number, valued, counted, summed};
ghost use Rattle.rules.specs.Results.{as_value, as_counted, as_sum, as_list};
ghost use Rattle.rules.specs.Helpers.{value_done, counted_done, sum_done};

use rules::{Counted, Counts, Element, Refusal, Sum, Value, Walk};

// What a call answers that carries an element.
#[tactic(auto, unfolding(rules::specs::Results::as_value))]
pub fn of_element(r: Result<Element, Refusal>) -> Value
    ensures { result ≡ as_value r }
{
    match r {
        Ok(e) => value(e),
        Err(refusal) => refused_value(refusal.number()),
    }
}

// What a call answers that carries counts.
#[tactic(auto, unfolding(rules::specs::Results::as_counted))]
pub fn of_counts(r: Result<Counts, Refusal>) -> Counted
    ensures { result ≡ as_counted r }
{
    match r {
        Ok(c) => counted(c),
        Err(refusal) => refused_counted(refusal.number()),
    }
}

// What a call answers that carries a sum.
#[tactic(auto, unfolding(rules::specs::Results::as_sum))]
pub fn of_sum(r: Result<Walk, Refusal>) -> Sum
    ensures { result ≡ as_sum r }
{
    match r {
        Ok(w) => sum(w.element, w.additions, w.doublings),
        Err(refusal) => refused_sum(refusal.number()),
    }
}

// The number that a call answers, whatever it carries.
#[tactic(auto, unfolding(rules::specs::Numbers::as_number))]
pub fn number<T>(r: &Result<T, Refusal>) -> u8
    ensures { result ≡ as_number r.now }
{
    match r {
        Ok(_) => 0,
        Err(refusal) => refusal.number(),
    }
}

// The list that a call answers, a row, a scalar or a window: so many of the given zero where it is refused.
#[tactic(auto, unfolding(rules::specs::Results::as_list))]
pub fn list<T: Copy, const N: usize>(r: Result<[T; N], Refusal>, zero: T) -> [T; N]
    ensures { result ≡ as_list N zero r }
{
    match r {
        Ok(list) => list,
        Err(_) => [zero; N],
    }
}

// The three kinds have fields of their own, and any number may be handed in, so that the next are six functions and take no `Refusal` (`one-answer-refused-value` and its kin).

// A done call's element.
pub fn value(e: Element) -> Value
    ensures { result ≡ value_done e }
{
    let value = flat::array(e);
    Value { number: 0, value }
}

// A done call's counts.
pub fn counted(c: Counts) -> Counted
    ensures { result ≡ counted_done c }
{
    Counted {
        number: 0,
        additions: c.additions,
        doublings: c.doublings,
    }
}

// A done call's sum, and what it took.
pub fn sum(e: Element, additions: u64, doublings: u64) -> Sum
    ensures { result ≡ sum_done e additions doublings }
{
    let value = flat::array(e);
    Sum {
        number: 0,
        value,
        additions,
        doublings,
    }
}

// A refused call's zeros, where it carries an element.
pub fn refused_value(n: u8) -> Value
    ensures { result ≡ valued n 0 }
{
    let value = [0u64; 4];
    Value { number: n, value }
}

// A refused call's zeros, where it carries counts.
pub fn refused_counted(n: u8) -> Counted
    ensures { result ≡ counted n 0 0 }
{
    Counted {
        number: n,
        additions: 0,
        doublings: 0,
    }
}

// A refused call's zeros, where it carries a sum.
pub fn refused_sum(number: u8) -> Sum
    ensures { result ≡ summed number 0 0 0 }
{
    let zeros = [0u64; 4];
    Sum {
        number,
        value: zeros,
        additions: 0,
        doublings: 0,
    }
}
