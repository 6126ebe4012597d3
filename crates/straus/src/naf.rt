// NAF Straus: what it asks of its lists.
ghost use Rattle.std.specs.Prelude.{◌≡◌};
ghost use Rattle.rules.specs.Numbers.{as_number};
ghost use Rattle.rules.specs.Engines.{naf_straus_refusal};

use rules::Refusal;

// The lists are handed on one by one, as to `asks`, where the reason stands.
// What the call asks, and the refusal where it is not so.
pub(crate) fn refusal(
    scalars: &[u8],
    points: &[u64],
    flags: &[u8],
    digits: usize,
    limbs: usize,
) -> Result<(), Refusal>
    ensures { as_number result ≡ naf_straus_refusal scalars.now points.now flags.now digits limbs }
{
    asks::lists(scalars, points, flags)?;
    let m = lent::pairs(scalars, points);
    asks::room(256 * m, digits, 32 * m, limbs)?;
    asks::contents(scalars, points, flags, points.len() / 4)
}
