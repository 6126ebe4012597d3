// What building static tables asks of its lists.
ghost use Rattle.std.specs.Prelude.{◌≡◌};
ghost use Rattle.rules.specs.Numbers.{as_number};
ghost use Rattle.rules.specs.Engines.{new_refusal};

use crate::{MOST_STATIC, TABLE_LIMBS};
use rules::Refusal;

// What building static tables asks, and the refusal where it is not so.
pub(crate) fn new_refusal(points: &[u64], tables: usize) -> Result<(), Refusal>
    ensures { as_number result ≡ new_refusal points.now tables }
{
    if lent::not_whole(points.len(), 4) {
        return Err(Refusal::NotWhole);
    }
    if lent::too_many(points.len(), 4, MOST_STATIC) {
        return Err(Refusal::TooMany);
    }
    if tables != TABLE_LIMBS * (points.len() / 4) {
        return Err(Refusal::BadRoom);
    }
    if lent::any_over(points) {
        return Err(Refusal::BadPoint);
    }
    Ok(())
}
