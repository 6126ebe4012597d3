// The checksum of a long list that a call may write.
ghost use Rattle.std.specs.Prelude.{◌<◌};

use crate::list::Item;
use std::convert::AsSlice;

// The checksum's two running sums, modulo 4294967291.
#[derive(Clone, Copy)]
struct Sums {
    s: u64,
    t: u64,
    ghost small_s: { s < 4294967291 },
    ghost small_t: { t < 4294967291 },
}

impl Sums {
    // The sums over one item more.
    fn add<T: Item>(&mut self, x: T) {
        for byte in x.bytes().as_slice() {
            self.s = (self.s + u64::from(*byte) + 1) % 4294967291;
            self.t = (self.t + self.s) % 4294967291;
        }
    }
}

// The checksum of a list.
pub(crate) fn checksum<T: Item>(list: &[T]) -> u64 {
    let mut sums = Sums { s: 1, t: 0 };
    for x in list {
        sums.add(*x);
    }
    sums.t << 32 | sums.s
}
