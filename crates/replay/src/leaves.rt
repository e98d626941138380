// The root, and what one face gives of its run of corners.

ghost use Rattle.std.specs.Prelude.{◌↔◌, IsTrue};
ghost use Rattle.faces.specs.Face.{InReach};

use cases::text::{Bits, Fields, Floats, Parted};
use faces::Run;
use std::io;
use std::io::Write;

// How many roots are taken before they are written.
const ROOTS: usize = 32;

// The most corners of a face that these functions take.
const MOST_CORNERS: usize = 60_000;

#[derive(Clone, Copy)]
pub enum Leaf {
    Centroid,
    AverageNormal,
    IsRegular,
}

// The root of each pattern, some at a time.
pub fn write_roots<W: Write>(bits: &[u32], out: &mut W) -> io::Result<()> {
    let Some((first, rest)) = bits.split_first() else {
        return Ok(());
    };
    write!(out, "{}", Parted(&[Bits(root::root_bits(*first))]))?;
    for some in rest.chunks(ROOTS) {
        let mut roots = [Bits(0); ROOTS];
        for (root, b) in roots.iter_mut().zip(some) {
            *root = Bits(root::root_bits(*b));
        }
        let n = some.len().min(ROOTS);
        write!(out, "{}", Fields(&roots[..n]))?;
    }
    Ok(())
}

// Whether each vertex number of the run has its three coordinates.
fn in_reach(coords: &[f32], face: &[u32]) -> bool
    ensures { IsTrue result ↔ InReach coords.now face.now }
{
    face.iter().all(|v| *v as usize * 3 + 3 <= coords.len())
}

// The leaf of a face, which is handed over as its run of corners.
pub fn write_leaf<W: Write>(
    leaf: Leaf,
    coords: &[f32],
    face: &[u32],
    out: &mut W,
) -> io::Result<()> {
    if face.len() > MOST_CORNERS || !in_reach(coords, face) {
        return write!(out, "unfit");
    }
    let run = Run { coords, face };
    match leaf {
        Leaf::Centroid => write!(out, "{}", Floats(run.centroid())),
        Leaf::AverageNormal => write!(out, "{}", Floats(run.average_normal())),
        Leaf::IsRegular if face.is_empty() => write!(out, "unfit"),
        Leaf::IsRegular => write!(out, "{}", u8::from(run.is_regular())),
    }
}
