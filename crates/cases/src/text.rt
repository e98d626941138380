// The fields of a line.

ghost use Rattle.std.specs.Prelude.{◌≡◌, ◌+◌, ◌≤◌, length};

use point::Point;
use std::fmt::Display;
use std::{fmt, str};

// How many fields are laid out at once, and the room for them: 22 bytes for each, with its space.
const AT_ONCE: usize = 8;

const ROOM: usize = 176;

static DIGITS: [u8; 16] = *b"0123456789abcdef";

// What can be a field of a line.
pub trait Field: Copy {
    // Lays the field out so that it ends at `end`; where it starts.
    fn lay_out(self, text: &mut [u8; ROOM], end: usize) -> usize
        requires room { 21 ≤ end }
        requires in_bounds { end ≤ 176 }
        ensures order { result ≤ end }
        ensures longest { end ≤ result + 21 };
}

// Decimal digits.
#[inline(always)]
fn lay_number(n: u32, text: &mut [u8; ROOM], end: usize) -> usize
    requires room { 10 ≤ end }
    requires in_bounds { end ≤ 176 }
    ensures order { result ≤ end }
    ensures longest { end ≤ result + 10 }
{
    let mut rest = n;
    for k in 0..10 {
        let start = end - 1 - k;
        text[start] = b'0' + (rest % 10) as u8;
        rest /= 10;
        if rest == 0 {
            return start;
        }
    }
    end - 10
}

// Eight hex digits.
#[inline(always)]
fn lay_bits(bits: u32, text: &mut [u8; ROOM], end: usize) -> usize
    requires room { 8 ≤ end }
    requires in_bounds { end ≤ 176 }
    ensures { result + 8 ≡ end }
{
    for k in 0..8 {
        text[end - 1 - k] = DIGITS[(bits >> (4 * k) & 15) as usize];
    }
    end - 8
}

impl Field for u32 {
    #[inline(always)]
    fn lay_out(self, text: &mut [u8; ROOM], end: usize) -> usize {
        lay_number(self, text, end)
    }
}

// A pair as A-B.
impl Field for [u32; 2] {
    #[inline(always)]
    fn lay_out(self, text: &mut [u8; ROOM], end: usize) -> usize {
        let [a, b] = self;
        let dash = lay_number(b, text, end) - 1;
        text[dash] = b'-';
        lay_number(a, text, dash)
    }
}

// A word by its eight hex digits.
#[derive(Clone, Copy)]
pub struct Bits(pub u32);

impl Field for Bits {
    #[inline(always)]
    fn lay_out(self, text: &mut [u8; ROOM], end: usize) -> usize {
        lay_bits(self.0, text, end)
    }
}

// A float by its bits. No contract can say which NaN a NaN is, so that each is `nan`.
impl Field for f32 {
    #[inline(always)]
    fn lay_out(self, text: &mut [u8; ROOM], end: usize) -> usize {
        if self.is_nan() {
            text[end - 3] = b'n';
            text[end - 2] = b'a';
            text[end - 1] = b'n';
            end - 3
        } else {
            lay_bits(self.to_bits(), text, end)
        }
    }
}

// Writes fields, each after a space; before the first there is none where the line begins.
fn write_fields<T: Field, W: fmt::Write>(
    f: &mut fmt::Formatter<W>,
    fields: &[T],
    begins: bool,
) -> fmt::Result
    requires { length fields.now ≤ 8 }
{
    let mut text = [b' '; ROOM];
    let mut start = ROOM;
    let n = fields.len();
    for k in 0..n {
        start = fields[n - 1 - k].lay_out(&mut text, start) - 1;
    }
    if begins && start < ROOM {
        start += 1;
    }
    match str::from_utf8(&text[start..]) {
        Ok(text) => f.write_str(text),
        Err(_) => Err(fmt::Error),
    }
}

// Each of a list after a space.
#[derive(Clone, Copy)]
pub struct Listed<'a, T>(pub &'a [T]);

impl<T: Display> Display for Listed<'_, T> {
    fn fmt<W: fmt::Write>(&self, f: &mut fmt::Formatter<W>) -> fmt::Result {
        for x in self.0 {
            write!(f, " {x}")?;
        }
        Ok(())
    }
}

// A list of fields, each after a space.
#[derive(Clone, Copy)]
pub struct Fields<'a, T>(pub &'a [T]);

impl<T: Field> Display for Fields<'_, T> {
    fn fmt<W: fmt::Write>(&self, f: &mut fmt::Formatter<W>) -> fmt::Result {
        for fields in self.0.chunks(AT_ONCE) {
            write_fields(f, fields, false)?;
        }
        Ok(())
    }
}

// A list, parted by spaces.
#[derive(Clone, Copy)]
pub struct Parted<'a, T>(pub &'a [T]);

impl<T: Field> Display for Parted<'_, T> {
    fn fmt<W: fmt::Write>(&self, f: &mut fmt::Formatter<W>) -> fmt::Result {
        let mut begins = true;
        for fields in self.0.chunks(AT_ONCE) {
            write_fields(f, fields, begins)?;
            begins = false;
        }
        Ok(())
    }
}

// A float by itself.
#[derive(Clone, Copy)]
pub struct Float(pub f32);

impl Display for Float {
    fn fmt<W: fmt::Write>(&self, f: &mut fmt::Formatter<W>) -> fmt::Result {
        write_fields(f, &[self.0], true)
    }
}

// The three floats of a point.
#[derive(Clone, Copy)]
pub struct Floats(pub Point);

impl Display for Floats {
    fn fmt<W: fmt::Write>(&self, f: &mut fmt::Formatter<W>) -> fmt::Result {
        let Point { x, y, z } = self.0;
        write_fields(f, &[x, y, z], true)
    }
}
