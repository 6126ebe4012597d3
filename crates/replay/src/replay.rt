// The cases, one after the other: each call reads its arguments, is run on them, and puts out its line.

use crate::call::Call;
use crate::input::{Input, Malformed};
use crate::list::Item;
use crate::output::{Answer, Output};
use batch::{MOST, SCALAR_BYTES, SLOT_DIGITS, SLOT_LIMBS};

// The most bytes of a list: two scalars over the limit.
pub(crate) const BYTES: usize = (MOST + 2) * SCALAR_BYTES;

// The most limbs of a list: eight windows over the limit.
pub(crate) const LIMBS: usize = (MOST + 8) * SLOT_LIMBS;

// The most digits of a list: three rows over the limits of static and dynamic scalars.
pub(crate) const DIGITS: usize = (2 * MOST + 3) * SLOT_DIGITS;

// Input and output, and room for the lists of a case; digits and windows are those that a call may write.
#[derive(Drop)]
pub(crate) struct Replay {
    pub input: Input,
    pub output: Output,
    pub scalars: [u8; BYTES],
    pub more_scalars: [u8; BYTES],
    pub flags: [u8; BYTES],
    pub points: [u64; LIMBS],
    pub more_points: [u64; LIMBS],
    pub digits: [i8; DIGITS],
    pub windows: [u64; LIMBS],
}

impl Replay {
    // Case after case, until the input ends or a case is malformed. A proved loop has to end, and nothing says that the input does, so the cases are counted up to a number that no run reaches.
    pub(crate) fn run(&mut self) {
        for k in 1..u64::MAX {
            let Ok(code) = self.input.byte() else {
                break;
            };
            if self.case(code).is_err() {
                self.output.malformed(k);
                break;
            }
        }
        self.output.flush();
    }

    // The case with this code.
    fn case(&mut self, code: u8) -> Result<(), Malformed> {
        match Call::try_from(code)? {
            Call::Add => self.of_two(group::add),
            Call::Subtract => self.of_two(group::subtract),
            Call::Negate => self.of_one(group::negate),
            Call::Double => self.of_one(group::double),
            Call::NonAdjacentForm => self.recode(scalar::non_adjacent_form),
            Call::Radix16 => self.radix_16(),
            Call::Radix2w => self.recode(radix::as_radix_2w),
            Call::ReadNaf => self.read(reader::read_naf),
            Call::ReadRadix => self.read(reader::read_radix),
            Call::LookupTable => self.of_one(window::lookup_table),
            Call::NafLookupTable5 => self.of_one(window::naf_lookup_table5),
            Call::NafLookupTable8 => self.of_one(window::naf_lookup_table8),
            Call::Select => self.select(lookup::select),
            Call::SelectNaf5 => self.select(lookup::select_naf5),
            Call::SelectNaf8 => self.select(lookup::select_naf8),
            Call::VariableBase => self.variable_base(),
            Call::VartimeDoubleBase => self.vartime_double_base(),
            Call::Straus => self.straus(),
            Call::OptionalStraus => self.flagged(straus::optional_multiscalar_mul),
            Call::NewTables => self.new_tables(),
            Call::MixedStraus => self.mixed_straus(),
            Call::Pippenger => self.flagged(pippenger::optional_multiscalar_mul),
            Call::Prepare => self.flagged(batch::prepare),
            Call::Set => self.set(),
            Call::Clear => self.clear(),
            Call::Total => self.total(),
        }
    }

    // A call on two elements.
    fn of_two<A: Answer, F: Fn(&[u64], &[u64]) -> A>(&mut self, call: F) -> Result<(), Malformed>
        requires { F.IsAlwaysCallable call }
    {
        let a = self.input.list(&mut self.points)?;
        let b = self.input.list(&mut self.more_points)?;
        self.output.line(call(a, b));
        Ok(())
    }

    // A call on one element, which gives an element or a window.
    fn of_one<A: Answer, F: Fn(&[u64]) -> A>(&mut self, call: F) -> Result<(), Malformed>
        requires { F.IsAlwaysCallable call }
    {
        let a = self.input.list(&mut self.points)?;
        self.output.line(call(a));
        Ok(())
    }

    // A scalar's row at a width. `read` is the same from the other memory: one for both would be handed which.
    fn recode<A: Answer, F: Fn(&[u8], usize) -> A>(&mut self, call: F) -> Result<(), Malformed>
        requires { F.IsAlwaysCallable call }
    {
        let scalar = self.input.list(&mut self.scalars)?;
        let width = self.input.number()?;
        self.output.line(call(scalar, width));
        Ok(())
    }

    // A scalar's digits to the base 16.
    fn radix_16(&mut self) -> Result<(), Malformed> {
        let scalar = self.input.list(&mut self.scalars)?;
        self.output.line(radix::as_radix_16(scalar));
        Ok(())
    }

    // The scalar of a row.
    fn read<A: Answer, F: Fn(&[i8], usize) -> A>(&mut self, call: F) -> Result<(), Malformed>
        requires { F.IsAlwaysCallable call }
    {
        let row = self.input.list(&mut self.digits)?;
        let width = self.input.number()?;
        self.output.line(call(row, width));
        Ok(())
    }

    // The entry of a window that a digit asks for.
    fn select<A: Answer, F: Fn(&[u64], i8) -> A>(&mut self, call: F) -> Result<(), Malformed>
        requires { F.IsAlwaysCallable call }
    {
        let window = self.input.list(&mut self.points)?;
        let digit = i8::read(&mut self.input)?;
        self.output.line(call(window, digit));
        Ok(())
    }

    // A point times a scalar.
    fn variable_base(&mut self) -> Result<(), Malformed> {
        let point = self.input.list(&mut self.points)?;
        let scalar = self.input.list(&mut self.scalars)?;
        self.output.line(variable_base::mul(point, scalar));
        Ok(())
    }

    // A point and the basepoint, each times a scalar.
    fn vartime_double_base(&mut self) -> Result<(), Malformed> {
        let a = self.input.list(&mut self.scalars)?;
        let point = self.input.list(&mut self.points)?;
        let b = self.input.list(&mut self.more_scalars)?;
        self.output.line(vartime_double_base::mul(a, point, b));
        Ok(())
    }

    // The total of a batch.
    fn total(&mut self) -> Result<(), Malformed> {
        let digits = self.input.list(&mut self.digits)?;
        let windows = self.input.list(&mut self.windows)?;
        self.output.line(batch::total(digits, windows));
        Ok(())
    }

    // Points times scalars, radix 16.
    fn straus(&mut self) -> Result<(), Malformed> {
        let scalars = self.input.list(&mut self.scalars)?;
        let points = self.input.list(&mut self.points)?;
        let digits = self.input.list(&mut self.digits)?;
        let windows = self.input.list(&mut self.windows)?;
        let r = straus::multiscalar_mul(scalars, points, digits, windows);
        self.output.line_with_lent(r, digits, windows);
        Ok(())
    }

    // A call on scalars, points and flags: a sum of optional points, or a batch that is prepared.
    fn flagged<A: Answer, F>(&mut self, call: F) -> Result<(), Malformed>
    where
        F: Fn(&[u8], &[u64], &[u8], &mut [i8], &mut [u64]) -> A,
        requires { F.IsAlwaysCallable call }
    {
        let scalars = self.input.list(&mut self.scalars)?;
        let points = self.input.list(&mut self.points)?;
        let flags = self.input.list(&mut self.flags)?;
        let digits = self.input.list(&mut self.digits)?;
        let windows = self.input.list(&mut self.windows)?;
        let r = call(scalars, points, flags, digits, windows);
        self.output.line_with_lent(r, digits, windows);
        Ok(())
    }

    // Static and dynamic points times scalars.
    fn mixed_straus(&mut self) -> Result<(), Malformed> {
        let tables = self.input.list(&mut self.points)?;
        let statics = self.input.list(&mut self.scalars)?;
        let dynamics = self.input.list(&mut self.more_scalars)?;
        let points = self.input.list(&mut self.more_points)?;
        let flags = self.input.list(&mut self.flags)?;
        let digits = self.input.list(&mut self.digits)?;
        let windows = self.input.list(&mut self.windows)?;
        let r = precomputed_straus::optional_mixed_multiscalar_mul(
            tables, statics, dynamics, points, flags, digits, windows,
        );
        self.output.line_with_lent(r, digits, windows);
        Ok(())
    }

    // The static tables of points.
    fn new_tables(&mut self) -> Result<(), Malformed> {
        let points = self.input.list(&mut self.points)?;
        let tables = self.input.list(&mut self.windows)?;
        let r = precomputed_straus::new(points, tables);
        r.write_to(&mut self.output);
        self.output.lent(tables);
        self.output.end();
        Ok(())
    }

    // A slot of a batch, set.
    fn set(&mut self) -> Result<(), Malformed> {
        let digits = self.input.list(&mut self.digits)?;
        let windows = self.input.list(&mut self.windows)?;
        let slot = self.input.number()?;
        let scalar = self.input.list(&mut self.scalars)?;
        let point = self.input.point()?;
        let r = batch::set(digits, windows, slot, scalar, point);
        self.output.line_with_lent(r, digits, windows);
        Ok(())
    }

    // A slot of a batch, cleared.
    fn clear(&mut self) -> Result<(), Malformed> {
        let digits = self.input.list(&mut self.digits)?;
        let windows = self.input.list(&mut self.windows)?;
        let r = batch::clear(digits, windows, self.input.number()?);
        self.output.line_with_lent(r, digits, windows);
        Ok(())
    }
}
