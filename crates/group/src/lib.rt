// The calls of the group on lent elements.
#![tactic(auto)]

ghost use Rattle.std.specs.Prelude.{◌≡◌};
ghost use Rattle.rules.specs.Numbers.{as_number};
ghost use Rattle.rules.specs.Results.{as_value};
ghost use Rattle.rules.specs.Windows.{point_refusal};
ghost use Rattle.rules.specs.Calls.{pair_refusal, group_add, group_subtract, group_negate, group_double};

use rules::{Element, Refusal};

// What a call on one lent element asks, and the refusal where it is not so.
pub fn point_refusal(p: &[u64]) -> Result<(), Refusal>
    ensures { as_number result ≡ point_refusal p.now }
{
    if p.len() != 4 {
        return Err(Refusal::NotWhole);
    }
    if residue::over(flat::element_at(p, 0)) {
        return Err(Refusal::BadPoint);
    }
    Ok(())
}

// What a call on two lent elements asks, and the refusal where it is not so.
fn pair_refusal(a: &[u64], b: &[u64]) -> Result<(), Refusal>
    ensures { as_number result ≡ pair_refusal a.now b.now }
{
    if a.len() != 4 {
        return Err(Refusal::NotWhole);
    }
    if b.len() != 4 {
        return Err(Refusal::NotWhole);
    }
    if residue::over(flat::element_at(a, 0)) {
        return Err(Refusal::BadPoint);
    }
    if residue::over(flat::element_at(b, 0)) {
        return Err(Refusal::BadPoint);
    }
    Ok(())
}

// The sum of two lent elements. Each call is its question and one operation: one function that is handed the operation would be no shorter.
pub fn add(a: &[u64], b: &[u64]) -> Result<Element, Refusal>
    ensures { as_value result ≡ group_add a.now b.now }
{
    pair_refusal(a, b)?;
    Ok(residue::plus(flat::element_at(a, 0), flat::element_at(b, 0)))
}

// The difference of two lent elements.
pub fn subtract(a: &[u64], b: &[u64]) -> Result<Element, Refusal>
    ensures { as_value result ≡ group_subtract a.now b.now }
{
    pair_refusal(a, b)?;
    Ok(residue::minus(flat::element_at(a, 0), flat::element_at(b, 0)))
}

// The inverse of a lent element.
pub fn negate(a: &[u64]) -> Result<Element, Refusal>
    ensures { as_value result ≡ group_negate a.now }
{
    point_refusal(a)?;
    Ok(residue::negative(flat::element_at(a, 0)))
}

// A lent element added to itself.
pub fn double(a: &[u64]) -> Result<Element, Refusal>
    ensures { as_value result ≡ group_double a.now }
{
    point_refusal(a)?;
    Ok(residue::twice(flat::element_at(a, 0)))
}
