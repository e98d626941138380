// The vertices of a result by number: which one a slot names at a corner.

ghost use Rattle.std.specs.Prelude.{◌≡◌, ◌<◌, length};
ghost use Rattle.mesh.specs.Edges.{Sound};
ghost use Rattle.rule.specs.Rule.{moved, named_at};
ghost use Rattle.rule.specs.Slots.{Fit};

use crate::{Bases, Kind, Move, Slot};

// A mesh that passed the tests up to 9, and where its new vertices of each kind start.
#[derive(Clone, Copy)]
pub struct Numbering<'a> {
    pub offsets: &'a [u32],
    pub corners: &'a [u32],
    pub bases: Bases,
    ghost sound: { Sound offsets.now corners.now },
    ghost fit: { Fit bases },
}

// The corner that a move comes to.
pub fn step(v: Move, c: usize, offsets: &[u32], corners: &[u32]) -> usize
    requires sound { Sound offsets.now corners.now }
    requires c_in_bounds { c < length corners.now }
    ensures { result ≡ moved offsets.now corners.now v c }
{
    match v {
        Move::Here => c,
        Move::Next => mesh::next_of(offsets, corners, c),
        Move::Prev => mesh::prev_of(offsets, corners, c),
        Move::Mate => mesh::mate_of(offsets, corners, c),
        Move::MateNext => {
            let d = mesh::mate_of(offsets, corners, c);
            mesh::next_of(offsets, corners, d)
        }
        Move::Turn => mesh::turn_at(offsets, corners, c),
    }
}

impl Numbering<'_> {
    ghost use Rattle.mesh.specs.Mesh.{faces, start, end};
    ghost use Rattle.rule.specs.Faces.{Ends};
    ghost use Rattle.rule.specs.Numbering.{vertices};

    // The corner that a move comes to.
    pub fn step(self, v: Move, c: usize) -> usize
        requires { c < length self.corners.now }
        ensures { result ≡ moved self.entry.offsets.now self.entry.corners.now v c }
    {
        step(v, c, self.offsets, self.corners)
    }

    // The vertex of one kind at a corner.
    #[tactic(auto, using(crate::proofs::Few::rank_few, crate::proofs::Few::face_few))]
    pub fn named(self, q: Kind, c: usize) -> u32
        requires { c < length self.corners.now }
        ensures { result ≡ named_at self.entry.offsets.now self.entry.corners.now self.entry.bases q c }
    {
        let b = self.bases;
        match q {
            Kind::Old => self.corners[c],
            Kind::Dir => {
                let e = mesh::rank_of(self.offsets, self.corners, c) as u32;
                let up = mesh::up_of(self.offsets, self.corners, c);
                b.dir + 2 * e + u32::from(!up)
            }
            Kind::Edge => b.edge + mesh::rank_of(self.offsets, self.corners, c) as u32,
            Kind::Cor => b.cor + c as u32,
            Kind::Face => b.face + mesh::face_of(self.offsets, c) as u32,
            Kind::Apex => b.face,
        }
    }

    // The vertex that a slot names at a corner.
    #[tactic(auto, using(crate::specs::Slots::moved_in), unfolding(crate::specs::Rule::vertex_at))]
    pub fn vertex(self, s: Slot, c: usize) -> u32
        requires { c < length self.corners.now }
        ensures { result ≡ vertices self.entry s c }
    {
        self.named(s.kind, self.step(s.at, c))
    }

    // The first corner of face `f`, and the one after its last.
    pub fn ends(self, f: usize) -> (usize, usize)
        requires { f < faces self.offsets.now }
        ensures value { (result.0 ≡ start self.entry.offsets.now f) × (result.1 ≡ end self.entry.offsets.now f) }
        ensures fits { Ends self.entry.corners.now result.0 result.1 }
    {
        (self.offsets[f] as usize, self.offsets[f + 1] as usize)
    }
}
