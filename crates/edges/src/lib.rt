// The edge list of a mesh.

#![tactic(auto)]

ghost use Rattle.std.specs.Prelude.{◌≡◌, ◌+◌, ◌≤◌, length};
ghost use Rattle.std.proofs.lemmas.List.Edits.{sets};
ghost use Rattle.slices.specs.Lists.{each};
ghost use Rattle.mesh.specs.Edges.{edges};
ghost use Rattle.edges.specs.EdgeList.{rise, listing, answer_of, list_after};
ghost use Rattle.mesh.specs.Lent.{of_mesh};
ghost use Rattle.mesh.specs.Shape.{Full, In};

use mesh::{Faces, Mesh, Reason, Refusal, check};

// The window of corner `c`, which is of face `f`, stored at `m` where it ascends; the place after it.
fn put_edge(faces: Faces<'_>, f: usize, c: usize, out: &mut [[u32; 2]], m: usize) -> usize
    requires fact { In faces.offsets.now f c }
    requires c_in_bounds { m + length (rise faces.offsets.now faces.corners.now c) ≤ length out.old }
    ensures value { result ≡ m + length (rise faces.entry.offsets.now faces.entry.corners.now c) }
    ensures out_after { out.new ≡ sets out.old m (rise faces.entry.offsets.now faces.entry.corners.now c) }
{
    if faces.up_in(f, c) {
        out[m] = faces.window_in(f, c);
        return m + 1;
    }
    m
}

// The windows that ascend, stored from the start of `out`.
fn put_edges(faces: Faces<'_>, out: &mut [[u32; 2]])
    requires full { Full faces.offsets.now }
    requires corners_in_bounds { edges faces.offsets.now faces.corners.now ≤ length out.old }
    ensures { out.new ≡ sets out.old 0 (each (rise faces.entry.offsets.now faces.entry.corners.now) (length faces.entry.corners.now)) }
{
    let mut m = 0;
    let mut f = 0;
    for c in 0..faces.corners.len() {
        m = put_edge(faces, f, c, out, m);
        f = faces.face_after(f, c);
    }
}

// The edges of any three slices, listed into `out`, and how many there are: nothing is written where the call is refused.
#[tactic(auto, using(crate::specs::EdgeList::listing_is))]
pub fn to_edges(mesh: Mesh<'_>, out: &mut [[u32; 2]]) -> Result<u32, Refusal>
    ensures value { result ≡ answer_of (of_mesh listing mesh.entry (length out.old)) }
    ensures out_after { out.new ≡ list_after (of_mesh listing mesh.entry (length out.old)) out.old }
{
    check(mesh)?;
    let faces = Faces {
        offsets: mesh.offsets,
        corners: mesh.corners,
    };
    let n = faces.ups_below(faces.corners.len());
    if out.len() < n {
        return Err(Reason::Room.at(0));
    }
    put_edges(faces, out);
    Ok(n as u32)
}
