// The cases on standard input: bytes through a buffer, and numbers.
ghost use Rattle.std.specs.Prelude.{◌<◌, ◌≤◌, IsOk, length};

use rules::Element;
use std::io::{Read, Stdin};

// A case that is malformed, or the end of the input.
#[derive(Clone, Copy)]
pub(crate) struct Malformed;

// Standard input, the buffer that it fills, the place of the next byte there, and how many bytes it has. Memory is fixed here, and the library's buffered reader takes an allocator.
#[derive(Drop)]
pub(crate) struct Input {
    from: Stdin,
    buffer: [u8; 65536],
    at: usize,
    end: usize,
    ghost ordered: { at ≤ end },
    ghost inside: { end ≤ 65536 },
}

// Bytes read until the buffer is full, the input ends or a read fails; how many they are. How far a read comes is known only after it, so that this loop is no `for`.
fn filled(from: Stdin, buffer: &mut [u8]) -> usize
    ensures { result ≤ length buffer.new }
{
    let mut from = from;
    let mut done = 0;
    while done < buffer.len() {
        match from.read(&mut buffer[done..]) {
            Ok(0) | Err(_) => break,
            Ok(n) => done += n,
        }
    }
    done
}

impl Input {
    // Standard input, of which nothing is read.
    pub(crate) fn new(from: Stdin) -> Input {
        Input {
            from,
            buffer: [0; 65536],
            at: 0,
            end: 0,
        }
    }

    // The buffer filled again, which fails where the input has ended.
    fn refill(&mut self) -> Result<(), Malformed>
        ensures { IsOk result → self.new.at < self.new.end }
    {
        let end = filled(self.from, &mut self.buffer);
        self.at = 0;
        self.end = end;
        if end == 0 { Err(Malformed) } else { Ok(()) }
    }

    // The next byte.
    pub(crate) fn byte(&mut self) -> Result<u8, Malformed> {
        if self.at == self.end {
            self.refill()?;
        }
        let byte = self.buffer[self.at];
        self.at += 1;
        Ok(byte)
    }

    // The next bytes.
    pub(crate) fn bytes<const N: usize>(&mut self) -> Result<[u8; N], Malformed> {
        let mut bytes = [0; N];
        for byte in &mut bytes {
            *byte = self.byte()?;
        }
        Ok(bytes)
    }

    // A number of four bytes, lowest first.
    pub(crate) fn count(&mut self) -> Result<usize, Malformed> {
        Ok(u32::from_le_bytes(self.bytes()?) as usize)
    }

    // A number of eight bytes, lowest first.
    pub(crate) fn number(&mut self) -> Result<usize, Malformed> {
        Ok(usize::from_le_bytes(self.bytes()?))
    }

    // An optional point: a flag, 0 or 1, and four limbs in either case. Another flag ends the case before a limb is read.
    pub(crate) fn point(&mut self) -> Result<Option<Element>, Malformed> {
        let flag = self.byte()?;
        if flag > 1 {
            return Err(Malformed);
        }
        let point = Element {
            l0: u64::from_le_bytes(self.bytes()?),
            l1: u64::from_le_bytes(self.bytes()?),
            l2: u64::from_le_bytes(self.bytes()?),
            l3: u64::from_le_bytes(self.bytes()?),
        };
        Ok(if flag == 0 { None } else { Some(point) })
    }
}
