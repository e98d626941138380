// What the library answers, as fields of a line.

use crate::text::Parted;
use engine::{Counts, Stop};
use mesh::Refusal;
use std::fmt;
use std::fmt::Display;
use verdicts::{number_of, place_of};

// The number, place and step of a refusal, then the counts of the result; zeros for what is not.
#[derive(Clone, Copy)]
pub struct Called(pub Result<Counts, Stop>);

impl Display for Called {
    fn fmt<W: fmt::Write>(&self, f: &mut fmt::Formatter<W>) -> fmt::Result {
        match self.0 {
            Ok(counts) => Parted(&[0, 0, 0, counts.v, counts.e, counts.f]).fmt(f),
            Err(stop) => Parted(&[stop.number, stop.place, stop.step, 0, 0, 0]).fmt(f),
        }
    }
}

// The number and place of a verdict; zeros where nothing is refused.
#[derive(Clone, Copy)]
pub struct Checked(pub Result<(), Refusal>);

impl Display for Checked {
    fn fmt<W: fmt::Write>(&self, f: &mut fmt::Formatter<W>) -> fmt::Result {
        Parted(&[number_of(self.0), place_of(self.0)]).fmt(f)
    }
}
