// A face cut into triangles.

ghost use Rattle.std.specs.Prelude.{◌≡◌, [], ◌∷◌, ◌+◌, ◌<◌, ◌≤◌, length};
ghost use Rattle.mesh.specs.Mesh as Mesh;
ghost use Rattle.mesh.specs.Mesh.{faces};
ghost use Rattle.mesh.specs.Edges.{Faced};
ghost use Rattle.faces.specs.Face.{InReach};
ghost use Rattle.rule.specs.Rule.{diagonal, cut_of, triangle_of, triangles};
ghost use Rattle.rule.specs.Triangles.{least};
ghost use Rattle.rule.specs.Output.{Put, RoomIn, SpaceIn};

use crate::{Cut, Output};

// The squared length of the diagonal between two corners.
#[tactic(auto, unfolding(crate::specs::Rule::diagonal))]
pub fn diagonal_of(coords: &[f32], face: &[u32], i: usize, j: usize) -> f32
    requires in_reach { InReach coords.now face.now }
    requires i_in_bounds { (i < length face.now) × (j < length face.now) }
    ensures { result ≡ diagonal coords.now face.now i j }
{
    let p = faces::point_at(coords, face[i] as usize);
    let q = faces::point_at(coords, face[j] as usize);
    (p - q).mag_sq()
}

// How a face is cut.
#[tactic(auto, unfolding(crate::specs::Rule::cut_of))]
pub fn cut_of(shorter: bool, coords: &[f32], face: &[u32]) -> Cut
    requires { InReach coords.now face.now }
    ensures { result ≡ cut_of shorter coords.now face.now }
{
    match face.len() {
        4 => {
            let p = diagonal_of(coords, face, 0, 2);
            let q = diagonal_of(coords, face, 1, 3);
            if shorter == (p < q) {
                Cut::Fan
            } else {
                Cut::Other
            }
        }
        5 => Cut::Five,
        _ => Cut::Fan,
    }
}

// Triangle `j` of a cut.
#[tactic(auto, unfolding(crate::specs::Rule::triangle_of))]
pub fn triangle_at(cut: Cut, face: &[u32], j: usize) -> [u32; 3]
    requires { (least cut ≤ length face.now) × (j + 2 < length face.now) }
    ensures { result ≡ triangle_of cut face.now j }
{
    match (cut, j) {
        (Cut::Fan, _) => [face[0], face[j + 1], face[j + 2]],
        (Cut::Other, 0) => [face[1], face[2], face[3]],
        (Cut::Other, _) => [face[1], face[3], face[0]],
        (Cut::Five, 0) => [face[0], face[1], face[4]],
        (Cut::Five, 1) => [face[1], face[2], face[4]],
        (Cut::Five, _) => [face[4], face[2], face[3]],
    }
}

// A triangle.
pub fn put_triangle(t: [u32; 3], out: &mut Output<'_>)
    requires { SpaceIn out.old 3 }
    ensures { Put out.old (t ∷ []) out.new }
{
    out.put_ring(3, |j| t[j])
}

// The triangles of a face.
pub fn put_triangles(shorter: bool, coords: &[f32], face: &[u32], out: &mut Output<'_>)
    requires in_reach { InReach coords.now face.now }
    requires in_bounds { 3 ≤ length face.now }
    requires room { RoomIn out.old (triangles shorter coords.now face.now) }
    ensures { Put out.old (triangles shorter coords.now face.now) out.new }
{
    let cut = cut_of(shorter, coords, face);
    for j in 0..face.len() - 2 {
        put_triangle(triangle_at(cut, face, j), out);
    }
}

// The triangles of face `f`.
#[tactic(auto, using(picks::specs::Runs::run_within, picks::specs::Runs::run_long, picks::specs::Runs::run_reach))]
pub fn put_cut(
    shorter: bool,
    offsets: &[u32],
    corners: &[u32],
    coords: &[f32],
    f: usize,
    out: &mut Output<'_>,
)
    requires faced { Faced offsets.now corners.now }
    requires in_reach { InReach coords.now corners.now }
    requires f_bound { f < faces offsets.now }
    requires room { RoomIn out.old (triangles shorter coords.now (Mesh.run offsets.now corners.now f)) }
    ensures { Put out.old (triangles shorter coords.now (Mesh.run offsets.now corners.now f)) out.new }
{
    let lo = offsets[f] as usize;
    let hi = offsets[f + 1] as usize;
    put_triangles(shorter, coords, &corners[lo..hi], out)
}
