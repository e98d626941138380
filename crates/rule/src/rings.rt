// The faces that slots make: at a corner, inside a face, round a vertex; a face turned over, and one split at its corners.

ghost use Rattle.std.specs.Prelude.{cond, [], ◌∷◌, ◌<◌, length};
ghost use Rattle.mesh.specs.Mesh.{faces, arity};
ghost use Rattle.mesh.specs.Tests.{faces_at};
ghost use Rattle.mesh.specs.Edges.{Faced, up};
ghost use Rattle.rule.specs.Rule.{made, inner, outer, backward, splits};
ghost use Rattle.rule.specs.Numbering.{vertices};
ghost use Rattle.rule.specs.Output.{Put, RoomIn, SpaceIn};

use crate::{Numbering, Output, Slot};

// The face that slots make at a corner.
pub fn put_face(slots: &[Slot], numbering: Numbering<'_>, c: usize, out: &mut Output<'_>)
    requires c_in_bounds { c < length numbering.corners.now }
    requires space { SpaceIn out.old (length slots.now) }
    ensures { Put out.old (made (vertices numbering.entry) slots.now c ∷ []) out.new }
{
    out.put_ring(slots.len(), |j| numbering.vertex(slots[j], c))
}

// The same where the window of the corner ascends, and no face elsewhere.
pub fn put_up(slots: &[Slot], numbering: Numbering<'_>, c: usize, out: &mut Output<'_>)
    requires c_in_bounds { c < length numbering.corners.now }
    requires room { RoomIn out.old (cond (up numbering.offsets.now numbering.corners.now c) (made (vertices numbering) slots.now c ∷ []) []) }
    ensures { Put out.old (cond (up numbering.entry.offsets.now numbering.entry.corners.now c) (made (vertices numbering.entry) slots.now c ∷ []) []) out.new }
{
    if mesh::up_of(numbering.offsets, numbering.corners, c) {
        put_face(slots, numbering, c, out);
    }
}

// The face inside face `f`, of one slot at each of its corners.
pub fn put_inner(s: Slot, numbering: Numbering<'_>, f: usize, out: &mut Output<'_>)
    requires f_bound { f < faces numbering.offsets.now }
    requires space { SpaceIn out.old (arity numbering.offsets.now f) }
    ensures { Put out.old (inner (vertices numbering.entry) numbering.entry.offsets.now s f ∷ []) out.new }
{
    let (lo, hi) = numbering.ends(f);
    out.put_ring(hi - lo, |j| numbering.vertex(s, lo + j))
}

// The face of vertex `u`, of one slot at each of the corners round it.
pub fn put_outer(s: Slot, numbering: Numbering<'_>, u: u32, out: &mut Output<'_>)
    requires { SpaceIn out.old (faces_at numbering.corners.now u) }
    ensures { Put out.old (outer (vertices numbering.entry) numbering.entry.offsets.now numbering.entry.corners.now s u ∷ []) out.new }
{
    let corners = numbering.corners;
    let k = out.at.cors;
    let n = mesh::faces_at(corners, u);
    let mut c = slices::find(corners, u, corners.len());
    for j in 0..n {
        out.corners[k + j] = numbering.vertex(s, c);
        c = mesh::turn_at(numbering.offsets, corners, c);
    }
    out.put_end(n)
}

// Face `f` with its corners in the other order.
#[tactic(auto, using(picks::specs::Runs::run_within, picks::specs::Runs::run_long))]
pub fn put_backward(offsets: &[u32], corners: &[u32], f: usize, out: &mut Output<'_>)
    requires faced { Faced offsets.now corners.now }
    requires f_bound { f < faces offsets.now }
    requires space { SpaceIn out.old (arity offsets.now f) }
    ensures { Put out.old (backward offsets.now corners.now f ∷ []) out.new }
{
    let lo = offsets[f] as usize;
    let hi = offsets[f + 1] as usize;
    let face = &corners[lo..hi];
    let n = face.len();
    out.put_ring(n, |j| face[n - 1 - j])
}

// The faces that slots make at each corner of face `f`.
pub fn put_splits(slots: &[Slot], numbering: Numbering<'_>, f: usize, out: &mut Output<'_>)
    requires f_bound { f < faces numbering.offsets.now }
    requires room { RoomIn out.old (splits (vertices numbering) slots.now numbering.offsets.now f) }
    ensures { Put out.old (splits (vertices numbering.entry) slots.now numbering.entry.offsets.now f) out.new }
{
    let (lo, hi) = numbering.ends(f);
    for c in lo..hi {
        put_face(slots, numbering, c, out);
    }
}
