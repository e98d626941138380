// Operators as rules: slots, sections, and the writers of a face.

#![tactic(auto)]

ghost use Rattle.std.specs.Prelude.{◌≡◌, ◌+◌, ◌^◌, ◌<◌};

use std::ops::Add;

mod numbering;
mod output;
mod rings;
mod triangles;

pub use numbering::{Numbering, step};
pub use output::Output;
pub use rings::{put_backward, put_face, put_inner, put_outer, put_splits, put_up};
pub use triangles::{cut_of, diagonal_of, put_cut, put_triangle, put_triangles, triangle_at};

// Where a slot of a rule looks from a corner.
#[derive(Clone, Copy)]
pub enum Move {
    Here,
    Next,
    Prev,
    Mate,
    MateNext,
    Turn,
}

// Which vertex a slot of a rule names there: the old one, or the new one of the directed edge that starts there, of the edge, of the
// corner, or of its face; or the one new vertex of the face at hand.
#[derive(Clone, Copy)]
pub enum Kind {
    Old,
    Dir,
    Edge,
    Cor,
    Face,
    Apex,
}

// What a rule puts at a place of a new face.
#[derive(Clone, Copy)]
pub struct Slot {
    pub kind: Kind,
    pub at: Move,
}

// The number of the first new vertex of each kind.
#[derive(Clone, Copy)]
pub struct Bases {
    pub dir: u32,
    pub edge: u32,
    pub cor: u32,
    pub face: u32,
}

// A place in the output: how many offsets stand before it, and how many corners.
#[derive(Clone, Copy)]
pub struct At {
    pub offs: usize,
    pub cors: usize,
}

// What the faces of a section are made at: nothing; each corner; each corner whose window ascends; each face, of one slot at its
// corners; each vertex, of one slot at the corners round it; each face turned over; each face cut into triangles, by the shorter
// diagonal or the longer; each face, a picked one split at its corners.
#[derive(Clone, Copy)]
pub enum Shape {
    Nothing,
    Corners,
    Ups,
    Inner,
    Vertices,
    Backward,
    Triangles(bool),
    Picks,
}

// A section of faces: a shape and its first n slots.
#[derive(Clone, Copy)]
pub struct Section {
    pub shape: Shape,
    pub slots: [Slot; 6],
    pub n: usize,
}

// How a face is cut into triangles: by a fan from its first corner, a quadrilateral by the other diagonal, a pentagon.
#[derive(Clone, Copy)]
pub enum Cut {
    Fan,
    Other,
    Five,
}

// How many faces and corners.
#[derive(Clone, Copy)]
pub struct Size {
    pub faces: usize,
    pub corners: usize,
}

impl Add for Size {
    type Output = Size;

    ghost can_add = { λ s t. (s.faces + t.faces < 2 ^ 64) × (s.corners + t.corners < 2 ^ 64) };

    ghost add_gives = { λ s t r. r ≡ record { faces = s.faces + t.faces; corners = s.corners + t.corners } };

    fn add(self, other: Size) -> Size {
        Size {
            faces: self.faces + other.faces,
            corners: self.corners + other.corners,
        }
    }
}
