// The lines on standard output: texts, numbers and lists through a buffer.
ghost use Rattle.std.specs.Prelude.{◌≡◌, ◌<◌, ◌≤◌};

use crate::checksum::checksum;
use crate::list::Item;
use rules::{Counts, Element, Refusal, Walk};
use std::convert::AsSlice;
use std::fmt;
use std::fmt::Write as _;
use std::io::{Stdout, Write};

// Standard output, the buffer in which bytes wait for it, and how many do: fixed memory, as in `Input`.
#[derive(Drop)]
pub(crate) struct Output {
    to: Stdout,
    buffer: [u8; 65536],
    waiting: usize,
    ghost inside: { waiting ≤ 65536 },
}

impl fmt::Write for Output {
    // A text behind the bytes that wait.
    fn write_str(&mut self, text: &str) -> fmt::Result {
        for byte in text.as_bytes() {
            self.byte(*byte);
        }
        Ok(())
    }
}

// The hexadecimal digit of a number below 16.
fn glyph(n: u8) -> u8
    requires { n < 16 }
{
    if n < 10 { b'0' + n } else { b'a' + (n - 10) }
}

impl Output {
    // Standard output, for which nothing waits.
    pub(crate) fn new(to: Stdout) -> Output {
        Output {
            to,
            buffer: [0; 65536],
            waiting: 0,
        }
    }

    // What waits is written; a write that fails loses it.
    pub(crate) fn flush(&mut self)
        ensures { self.new.waiting ≡ 0 }
    {
        let mut to = self.to;
        let _ = to.write_all(&self.buffer[..self.waiting]);
        self.waiting = 0;
    }

    // A byte behind those that wait, which are written where the buffer is full.
    fn byte(&mut self, byte: u8) {
        if self.waiting == 65536 {
            self.flush();
        }
        self.buffer[self.waiting] = byte;
        self.waiting += 1;
    }

    // A list's content, two hexadecimal digits a byte. Each is put out by itself: behind `Display` a list took four times as long by `{:02x}`, and half as long again by `write_char`.
    fn hex<T: Item>(&mut self, list: &[T]) {
        for x in list {
            for byte in x.bytes().as_slice() {
                self.byte(glyph(*byte / 16));
                self.byte(glyph(*byte % 16));
            }
        }
    }

    // A number and a value, with no counts.
    fn value<T: Item>(&mut self, number: u8, value: &[T]) {
        let _ = write!(self, "{number} ");
        self.hex(value);
        let _ = self.write_str(" - -");
    }

    // A lent list: the number of its elements, and its content in full up to 64 bytes.
    pub(crate) fn lent<T: Item>(&mut self, list: &[T]) {
        let _ = write!(self, " {}:", list.len());
        if size_of_val(list) <= 64 {
            self.hex(list);
        } else {
            let _ = write!(self, "#{:016x}", checksum(list));
        }
    }

    // The line of an answer alone.
    pub(crate) fn line<A: Answer>(&mut self, r: A) {
        r.write_to(self);
        self.end();
    }

    // The line of an answer, with the digits and windows that the call may write.
    pub(crate) fn line_with_lent<A: Answer>(&mut self, r: A, digits: &[i8], windows: &[u64]) {
        r.write_to(self);
        self.lent(digits);
        self.lent(windows);
        self.end();
    }

    // The end of a line.
    pub(crate) fn end(&mut self) {
        self.byte(b'\n');
    }

    // The last line, where case k is malformed.
    pub(crate) fn malformed(&mut self, k: u64) {
        let _ = writeln!(self, "malformed at case {k}");
    }
}

// A call's answer.
pub(crate) trait Answer {
    // Its fields, which stand before the lent lists: zeros where the call is refused.
    fn write_to(self, output: &mut Output);
}

impl Answer for Result<Element, Refusal> {
    // An element.
    fn write_to(self, output: &mut Output) {
        let r = answer::of_element(self);
        output.value(r.number, &r.value);
    }
}

impl<T: Item, const N: usize> Answer for Result<[T; N], Refusal> {
    // A row, a scalar or a window.
    fn write_to(self, output: &mut Output) {
        let number = answer::number(&self);
        output.value(number, &answer::list(self, T::default()));
    }
}

impl Answer for Result<Counts, Refusal> {
    // Counts alone.
    fn write_to(self, output: &mut Output) {
        let r = answer::of_counts(self);
        let _ = write!(output, "{} - {} {}", r.number, r.additions, r.doublings);
    }
}

impl Answer for Result<Walk, Refusal> {
    // A sum, and what it took.
    fn write_to(self, output: &mut Output) {
        let r = answer::of_sum(self);
        let _ = write!(output, "{} ", r.number);
        output.hex(&r.value);
        let _ = write!(output, " {} {}", r.additions, r.doublings);
    }
}
