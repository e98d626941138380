// The list of the edges of a mesh.

use cases::case::Case;
use cases::owned::pairs;
use cases::text::{Fields, Parted};
use mesh::Refusal;
use std::alloc::Global;
use std::fmt::Display;
use std::io::Write;
use std::{fmt, io};

// The number and place of a refusal, then how many edges are listed; zeros for what is not.
#[derive(Clone, Copy)]
struct EdgesAnswer(Result<u32, Refusal>);

impl Display for EdgesAnswer {
    fn fmt<W: fmt::Write>(&self, f: &mut fmt::Formatter<W>) -> fmt::Result {
        match self.0 {
            Ok(edges) => Parted(&[0, 0, edges]).fmt(f),
            Err(why) => Parted(&[why.number, why.place, 0]).fmt(f),
        }
    }
}

// The lent pairs are printed whole, with what the call left alone.
pub fn write_edges<W: Write>(case: &Case, alloc: Global, out: &mut W) -> io::Result<()> {
    let Case { header, mesh, .. } = case;
    let mut lent = pairs(alloc, header.rooms.offsets, header.fill)?;
    let listing = edges::to_edges(mesh.as_mesh(), &mut lent);
    write!(out, "{} e{}", EdgesAnswer(listing), Fields(&lent))
}
