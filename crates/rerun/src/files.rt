// The code 42: what reading a panel file comes to.

use cases::header::Header;
use cases::owned::OwnedMesh;
use cases::text::{Float, Parted};
use mesh::Refusal;
use panel::Held;
use std::alloc::Global;
use std::fmt::Display;
use std::io::{Read, Write};
use std::{fmt, io};
use steps::Step;

// The file of a case: n bytes, in whole words.
pub fn read_file<R: Read>(input: &mut R, alloc: Global, n: u32) -> io::Result<Vec<u8>> {
    let n = n as usize;
    let mut bytes = vec![in alloc; 0u8; n.next_multiple_of(4)]?;
    input.read_exact(&mut bytes)?;
    bytes.truncate(n);
    Ok(bytes)
}

// The number and place of a refusal, then how many steps, positions, faces and corners the file holds; zeros for what is not.
#[derive(Clone, Copy)]
struct FileAnswer(Result<Held, Refusal>);

impl Display for FileAnswer {
    fn fmt<W: fmt::Write>(&self, f: &mut fmt::Formatter<W>) -> fmt::Result {
        match self.0 {
            Ok(held) => {
                let (steps, positions) = (held.steps, held.positions);
                Parted(&[0, 0, steps, positions, held.faces, held.corners]).fmt(f)
            }
            Err(why) => Parted(&[why.number, why.place, 0, 0, 0, 0]).fmt(f),
        }
    }
}

// The ratio and the height that a step carries.
fn numbers_of(step: Step) -> (Option<f32>, Option<f32>) {
    match step {
        Step::Ambo(t) | Step::Chamfer(t) | Step::Propellor(t) => (t, None),
        Step::Kis(h) | Step::Quinto(h) => (None, h),
        Step::Gyro(t, h) | Step::Whirl(t, h) => (t, h),
        Step::Dual | Step::Reflect | Step::Reverse | Step::Triangulate => { (None, None) }
    }
}

// A number as a flag and a float: neither where it is absent.
fn told(number: Option<f32>, flag: u32) -> (u32, Float) {
    match number {
        None => (0, Float(0.0)),
        Some(x) => (flag, Float(x)),
    }
}

// Code, flags, ratio, height.
#[derive(Clone, Copy)]
struct StepWords(Step);

impl Display for StepWords {
    fn fmt<W: fmt::Write>(&self, f: &mut fmt::Formatter<W>) -> fmt::Result {
        let (ratio, height) = numbers_of(self.0);
        let (has_ratio, ratio) = told(ratio, 1);
        let (has_height, height) = told(height, 2);
        let code = steps::code(self.0);
        let flags = has_ratio | has_height;
        write!(f, "{code} {flags} {ratio} {height}")
    }
}

// The steps are printed all sixteen, the lent mesh whole, with what the call left alone.
pub fn write_file<W: Write>(
    bytes: &[u8],
    header: &Header,
    alloc: Global,
    out: &mut W,
) -> io::Result<()> {
    let mut lent = OwnedMesh::lent(alloc, header.rooms, header.fill)?;
    let filed = panel::read(bytes, &mut lent.as_room());
    write!(out, "{} s", FileAnswer(filed))?;
    for step in panel::steps(bytes) {
        write!(out, " {}", StepWords(step))?;
    }
    write!(out, "{lent}")
}
