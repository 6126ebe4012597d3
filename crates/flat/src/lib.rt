// Elements of flat limbs: one that is read, and its limbs as an array.
#![tactic(auto)]

ghost use Rattle.std.specs.Prelude.{◌≡◌, ◌+◌, ◌*◌, ◌<◌, get_or};
ghost use Rattle.rules.specs.Values.{limbs_of, element_at};

use rules::Element;

// The limbs of an element as an array, lowest first; README.md names it, and a From beside it would be a second name.
pub fn array(e: Element) -> [u64; 4]
    ensures { result ≡ limbs_of e }
{
    [e.l0, e.l1, e.l2, e.l3]
}

// Limb c of element i of flat limbs, 0 past their end; the test of i keeps its place within a word.
fn limb_at(l: &[u64], i: usize, c: usize) -> u64
    requires { c < 4 }
    ensures { result ≡ get_or l.now (4 * i + c) 0 }
{
    if i < l.len() {
        l.get(4 * i + c).copied().unwrap_or(0)
    } else {
        0
    }
}

// Element i where the list ends within it, or before it.
#[tactic(auto, unfolding(rules::specs::Values::element_at))]
fn last_at(l: &[u64], i: usize) -> Element
    ensures { result ≡ element_at l.now i }
{
    Element {
        l0: limb_at(l, i, 0),
        l1: limb_at(l, i, 1),
        l2: limb_at(l, i, 2),
        l3: limb_at(l, i, 3),
    }
}

// Element i of flat limbs, 0 past their end.
#[tactic(auto, unfolding(rules::specs::Values::element_at))]
pub fn element_at(l: &[u64], i: usize) -> Element
    ensures { result ≡ element_at l.now i }
{
    if l.len() / 4 <= i {
        return last_at(l, i);
    }
    let k = 4 * i;
    Element {
        l0: l[k],
        l1: l[k + 1],
        l2: l[k + 2],
        l3: l[k + 3],
    }
}
