// The lists of a case, each in one of three modes, read into the front of lent memory.
use crate::input::{Input, Malformed};
use std::convert::AsSlice;

// An item of a list: a byte, a digit or a limb.
pub(crate) trait Item: Copy + Default {
    type Bytes: AsSlice<u8> + Drop;

    // The next one of the input.
    fn read(input: &mut Input) -> Result<Self, Malformed>;

    // Its bytes, lowest first and in two's complement.
    fn bytes(self) -> Self::Bytes;
}

impl Item for u8 {
    type Bytes = [u8; 1];

    // A byte of the input.
    fn read(input: &mut Input) -> Result<u8, Malformed> {
        input.byte()
    }

    // The byte itself.
    fn bytes(self) -> [u8; 1] {
        [self]
    }
}

impl Item for i8 {
    type Bytes = [u8; 1];

    // A byte of the input, in two's complement.
    fn read(input: &mut Input) -> Result<i8, Malformed> {
        Ok(i8::from_le_bytes(input.bytes()?))
    }

    // The byte that stands for it.
    fn bytes(self) -> [u8; 1] {
        self.to_le_bytes()
    }
}

impl Item for u64 {
    type Bytes = [u8; 8];

    // Eight bytes of the input, lowest first.
    fn read(input: &mut Input) -> Result<u64, Malformed> {
        Ok(u64::from_le_bytes(input.bytes()?))
    }

    // These eight bytes.
    fn bytes(self) -> [u8; 8] {
        self.to_le_bytes()
    }
}

// How a list's items are given: each of them, one for all, or one for all but for exceptions.
#[derive(Clone, Copy)]
enum Mode {
    Each,
    Same,
    Except,
}

impl TryFrom<u8> for Mode {
    type Error = Malformed;

    // The mode of this number.
    fn try_from(mode: u8) -> Result<Mode, Malformed> {
        match mode {
            0 => Ok(Mode::Each),
            1 => Ok(Mode::Same),
            2 => Ok(Mode::Except),
            _ => Err(Malformed),
        }
    }
}

impl Input {
    // Each item of a list.
    fn each<T: Item>(&mut self, list: &mut [T]) -> Result<(), Malformed> {
        for x in list {
            *x = T::read(self)?;
        }
        Ok(())
    }

    // One item for a whole list.
    fn same<T: Item>(&mut self, list: &mut [T]) -> Result<(), Malformed> {
        let item = T::read(self)?;
        for x in list {
            *x = item;
        }
        Ok(())
    }

    // The exceptions of a list, whose places rise.
    fn exceptions<T: Item>(&mut self, list: &mut [T]) -> Result<(), Malformed> {
        let mut least = 0;
        for _ in 0..self.count()? {
            let place = self.count()?;
            if place < least || place >= list.len() {
                return Err(Malformed);
            }
            list[place] = T::read(self)?;
            least = place + 1;
        }
        Ok(())
    }

    // A list into the front of this memory; malformed where it has more items than the memory.
    pub(crate) fn list<'a, T: Item>(
        &mut self,
        room: &'a mut [T],
    ) -> Result<&'a mut [T], Malformed> {
        let n = self.count()?;
        let mode = Mode::try_from(self.byte()?)?;
        if n > room.len() {
            return Err(Malformed);
        }
        let list = &mut room[..n];
        match mode {
            Mode::Each => self.each(list)?,
            Mode::Same => self.same(list)?,
            Mode::Except => {
                self.same(list)?;
                self.exceptions(list)?;
            }
        }
        Ok(list)
    }
}
