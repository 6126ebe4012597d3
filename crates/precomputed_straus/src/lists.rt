// The lists of a mixed sum: what is asked of them, and the walk over them.
ghost use Rattle.std.specs.Prelude.{◌≡◌, length};
ghost use Rattle.rules.specs.Numbers.{as_number, first};
ghost use Rattle.rules.specs.Engines.{mixed_lists, mixed_contents, mixed_refusal};
ghost use Rattle.precomputed_straus.specs.Fill.{Ready, mixed_walk};

use crate::{MOST_STATIC, TABLE_LIMBS};
use rules::{Refusal, Row, Walk, Window};

// Static scalars with the tables of their points, and dynamic scalars with their points and flags.
#[derive(Clone, Copy)]
pub(crate) struct Mixed<'a> {
    pub(crate) tables: &'a [u64],
    pub(crate) static_scalars: &'a [u8],
    pub(crate) scalars: &'a [u8],
    pub(crate) points: &'a [u64],
    pub(crate) flags: &'a [u8],
}

impl<'a> Mixed<'a> {
    // 1 and 2 of a mixed sum.
    fn lists(self) -> Result<(), Refusal>
        ensures { as_number result ≡ first (mixed_lists self.entry.tables.now self.entry.static_scalars.now self.entry.scalars.now self.entry.points.now self.entry.flags.now) }
    {
        let cut = lent::not_whole(self.tables.len(), TABLE_LIMBS);
        if cut | lent::not_whole(self.static_scalars.len(), 32) {
            return Err(Refusal::NotWhole);
        }
        asks::lists(self.scalars, self.points, self.flags)?;
        let many = lent::too_many(self.tables.len(), TABLE_LIMBS, MOST_STATIC);
        if many | lent::too_many(self.static_scalars.len(), 32, lent::MOST) {
            return Err(Refusal::TooMany);
        }
        Ok(())
    }

    // 6 to 10 of a mixed sum.
    fn contents(self) -> Result<(), Refusal>
        ensures { as_number result ≡ first (mixed_contents self.entry.tables.now self.entry.static_scalars.now self.entry.scalars.now self.entry.points.now self.entry.flags.now) }
    {
        if lent::any_big(self.static_scalars) {
            return Err(Refusal::BigScalar);
        }
        asks::contents(self.scalars, self.points, self.flags, self.points.len() / 4)?;
        let untabled = self.tables.len() / TABLE_LIMBS < self.static_scalars.len() / 32;
        if untabled | (self.scalars.len() / 32 != self.points.len() / 4) {
            return Err(Refusal::Unequal);
        }
        if lent::any_over(self.tables) {
            return Err(Refusal::BadDigit);
        }
        Ok(())
    }

    // What a mixed sum asks, and the refusal where it is not so.
    pub(crate) fn refusal(self, digits: usize, limbs: usize) -> Result<(), Refusal>
        ensures { as_number result ≡ mixed_refusal self.entry.tables.now self.entry.static_scalars.now self.entry.scalars.now self.entry.points.now self.entry.flags.now digits limbs }
    {
        self.lists()?;
        let p = self.scalars.len() / 32;
        let rows = self.static_scalars.len() / 32 + p;
        asks::room(256 * rows, digits, 32 * p, limbs)?;
        self.contents()
    }

    // Counts of both parts are added here, as `rules::Walk` says.
    // The walk over dynamic pairs and static rows, which are laid into room of just their length.
    pub(crate) fn walk(self, digits: &mut [i8], limbs: &mut [u64]) -> Walk
        requires { Ready self.tables.now self.static_scalars.now self.scalars.now self.points.now (length digits.old) (length limbs.old) }
        ensures { result ≡ mixed_walk self.entry.tables.now self.entry.static_scalars.now self.entry.scalars.now self.entry.points.now }
    {
        let p = self.scalars.len() / 32;
        let q = self.static_scalars.len() / 32;
        let d = 256 * p;
        laying::rows(self.scalars, p, Row::Naf(5), &mut *digits);
        laying::rows(self.static_scalars, q, Row::Naf(8), &mut digits[d..]);
        let made = laying::windows(self.points, p, Window::Odd8, &mut *limbs);
        let rows = &digits[..];
        let w = columns::walk(&rows[..d], &limbs[..], &rows[d..], self.tables, 256);
        Walk {
            element: w.element,
            additions: made.additions + w.additions,
            doublings: made.doublings + w.doublings,
        }
    }
}
