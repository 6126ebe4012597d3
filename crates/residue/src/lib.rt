// Numbers modulo L in four limbs: the group of residues.
#![tactic(auto)]

ghost use Rattle.std.specs.Prelude.{◌≡◌, leb};
ghost use Rattle.rules.specs.Values.{value_of, element_of};
ghost use Rattle.rules.specs.Group.{L, added, subtracted, negated, elements};
ghost use Rattle.rules.specs.Loops.{doubled};

use rules::Element;

// The order L of the group; a function and no constant, since README.md names it so.
#[tactic(auto, unfolding(rules::specs::Group::L, rules::specs::Values::element_of))]
pub fn order() -> Element
    ensures { result ≡ element_of L }
{
    Element {
        l0: 6346243789798364141,
        l1: 1503914060200516822,
        l2: 0,
        l3: 1152921504606846976,
    }
}

// A function beside `order`, as the claim `one-residue-identity` has it.
// The identity, 0.
#[tactic(auto, unfolding(rules::specs::Values::element_of))]
pub fn identity() -> Element
    ensures { result ≡ element_of 0 }
{
    Element {
        l0: 0,
        l1: 0,
        l2: 0,
        l3: 0,
    }
}

// Whether an element is at or above L.
#[tactic(auto, using(crate::proofs::Reduction::order_is))]
pub fn over(a: Element) -> bool
    ensures { result ≡ leb L (value_of a) }
{
    limbs::over(order(), a)
}

// The sum of two elements, for any limbs. It and `minus` are the calls of `limbs` at L, one each, under the names that the group's calls cite.
#[tactic(auto, using(crate::proofs::Reduction::order_is))]
pub fn plus(a: Element, b: Element) -> Element
    ensures { result ≡ added a b }
{
    limbs::plus(order(), a, b)
}

// The difference of two elements, for any limbs.
#[tactic(auto, using(crate::proofs::Reduction::order_is))]
pub fn minus(a: Element, b: Element) -> Element
    ensures { result ≡ subtracted a b }
{
    limbs::minus(order(), a, b)
}

// The inverse of an element, for any limbs.
#[tactic(auto, unfolding(rules::specs::Group::negated_modulo))]
pub fn negative(a: Element) -> Element
    ensures { result ≡ negated a }
{
    let zero = identity();
    minus(zero, a)
}

// An element added to itself, for any limbs.
pub fn twice(a: Element) -> Element
    ensures { result ≡ added a a }
{
    plus(a, a)
}

// An element doubled k times, for any limbs.
pub fn mul_by_pow_2(a: Element, k: usize) -> Element
    ensures { result ≡ doubled elements k a }
{
    let mut q = a;
    for _ in 0..k {
        q = twice(q);
    }
    q
}
