// A section of faces: how large it is, and its faces written.

#![tactic(auto)]

ghost use Rattle.std.specs.Prelude.{◌≡◌, true, false, [], ◌/◌, ◌<◌, ◌≤◌, length};
ghost use Rattle.faces.specs.Face.{InReach};
ghost use Rattle.mesh.specs.Mesh.{faces, arity};
ghost use Rattle.mesh.specs.Edges.{Sound, Faced};
ghost use Rattle.rule.specs.Rule.{faces_at_place, face_places, section_of};
ghost use Rattle.rule.specs.Slots.{Low};
ghost use Rattle.rule.specs.declared.Shape.TheVariants.{Picks};
ghost use Rattle.rule.specs.Sections.{closes, is_picks, no_mask, Ruled};
ghost use Rattle.rule.specs.Sizes.{Counted, Sized};
ghost use Rattle.rule.specs.Output.{Put, RoomIn};
ghost use Rattle.sections.specs.Lent.{section_on, pick_faces};

use picks::{Masks, Ready};
use rule::{Bases, Kind, Move, Numbering, Output, Section, Shape, Size, Slot};

// ---- the size of a section

// How many corners face `f` has.
pub fn arity_of(offsets: &[u32], corners: &[u32], f: usize) -> usize
    requires faced { Faced offsets.now corners.now }
    requires f_bound { f < faces offsets.now }
    ensures value { result ≡ arity offsets.now f }
    ensures lower_bound { (3 ≤ result) × (result ≤ 60000) }
{
    offsets[f + 1] as usize - offsets[f] as usize
}

// How many places a section looks at.
#[tactic(auto, unfolding(rule::specs::Rule::face_places))]
pub fn places(q: Shape, offsets: &[u32], corners: &[u32], coords: &[f32]) -> usize
    requires { 0 < length offsets.now }
    ensures { result ≡ face_places q offsets.now corners.now coords.now }
{
    let faces = offsets.len() - 1;
    match q {
        Shape::Nothing => 0,
        Shape::Corners | Shape::Ups => corners.len(),
        Shape::Vertices => coords.len() / 3,
        Shape::Inner | Shape::Backward | Shape::Triangles(_) | Shape::Picks => faces,
    }
}

// How many faces and corners a section has at a place.
#[tactic(auto, unfolding(rule::specs::Rule::face_places))]
pub fn size_at(
    s: Section,
    masks: Masks<'_>,
    offsets: &[u32],
    corners: &[u32],
    coords: &[f32],
    i: usize,
) -> Size
    requires faced { Faced offsets.now corners.now }
    requires in_reach { InReach coords.now corners.now }
    requires coords_len_bound { length coords.now / 3 ≤ 60000 }
    requires ruled { Ruled s }
    requires i_bound { i < face_places s.shape offsets.now corners.now coords.now }
    ensures { Counted (λ b. faces_at_place s b masks.entry.mask masks.entry.arities.now masks.entry.numbers.now offsets.now corners.now coords.now i) 400000 result }
{
    let (faces, corners) = match s.shape {
        Shape::Nothing => (0, 0),
        Shape::Corners => (1, s.n),
        Shape::Ups if mesh::up_of(offsets, corners, i) => (1, s.n),
        Shape::Ups => (0, 0),
        Shape::Inner | Shape::Backward => (1, arity_of(offsets, corners, i)),
        Shape::Vertices => (1, mesh::faces_at(corners, i as u32)),
        Shape::Triangles(_) => {
            let n = arity_of(offsets, corners, i) - 2;
            (n, 3 * n)
        }
        Shape::Picks if picks::picks(masks, offsets, corners, coords, i) => {
            let n = arity_of(offsets, corners, i);
            (n, s.n * n)
        }
        Shape::Picks => (1, arity_of(offsets, corners, i)),
    };
    Size { faces, corners }
}

// How many faces and corners a section has.
pub fn section_size(s: Section, masks: Masks<'_>, mesh: Ready<'_>) -> Size
    requires { Ruled s }
    ensures { Sized s masks.entry.mask masks.entry.arities.now masks.entry.numbers.now mesh.entry.offsets.now mesh.entry.corners.now mesh.entry.coords.now result }
{
    let mut t = Size {
        faces: 0,
        corners: 0,
    };
    for i in 0..places(s.shape, mesh.offsets, mesh.corners, mesh.coords) {
        t = t + size_at(s, masks, mesh.offsets, mesh.corners, mesh.coords, i);
    }
    t
}

// ---- a section

// The old vertex of a corner.
const OLD: Slot = Slot {
    kind: Kind::Old,
    at: Move::Here,
};

// Face `f` split at its corners where it is picked, after `seen` picked faces; as it is where it is not.
pub fn put_pick(
    hit: bool,
    seen: usize,
    slots: &[Slot],
    numbering: Numbering<'_>,
    f: usize,
    out: &mut Output<'_>,
)
    requires low { Low numbering.bases × (seen ≤ 60000) }
    requires f_bound { f < faces numbering.offsets.now }
    requires room { RoomIn out.old (pick_faces hit seen slots.now numbering f) }
    ensures { Put out.old (pick_faces hit seen slots.now numbering.entry f) out.new }
{
    if hit {
        let bases = Bases {
            face: numbering.bases.face + seen as u32,
            ..numbering.bases
        };
        let apexed = Numbering {
            offsets: numbering.offsets,
            corners: numbering.corners,
            bases,
        };
        rule::put_splits(slots, apexed, f, out);
    } else {
        rule::put_inner(OLD, numbering, f, out);
    }
}

// The faces of a section that picks.
pub fn put_picks(
    s: Section,
    numbering: Numbering<'_>,
    masks: Masks<'_>,
    coords: &[f32],
    out: &mut Output<'_>,
)
    requires in_reach { InReach coords.now numbering.corners.now }
    requires low { Low numbering.bases × Ruled s }
    requires shape_value { s.shape ≡ Picks }
    requires room { RoomIn out.old (section_of s numbering.bases masks.mask masks.arities.now masks.numbers.now numbering.offsets.now numbering.corners.now coords.now) }
    ensures { Put out.old (section_of s numbering.entry.bases masks.entry.mask masks.entry.arities.now masks.entry.numbers.now numbering.entry.offsets.now numbering.entry.corners.now coords.now) out.new }
{
    let slots = &s.slots[..s.n];
    let offsets = numbering.offsets;
    let corners = numbering.corners;
    let mut seen = 0;
    for f in 0..offsets.len() - 1 {
        let hit = picks::picks(masks, offsets, corners, coords, f);
        put_pick(hit, seen, slots, numbering, f, out);
        seen += usize::from(hit);
    }
}

// The faces at a place, of a section whose slots look past a face.
#[tactic(auto, unfolding(rule::specs::Rule::face_places))]
fn put_closed(s: Section, numbering: Numbering<'_>, coords: &[f32], i: usize, out: &mut Output<'_>)
    requires coords_len_bound { length coords.now / 3 ≤ 60000 }
    requires ruled { Ruled s }
    requires shape_value { closes s.shape ≡ true }
    requires not_picks { is_picks s.shape ≡ false }
    requires i_bound { i < face_places s.shape numbering.offsets.now numbering.corners.now coords.now }
    requires room { RoomIn out.old (faces_at_place s numbering.bases no_mask [] [] numbering.offsets.now numbering.corners.now coords.now i) }
    ensures { Put out.old (faces_at_place s numbering.entry.bases no_mask [] [] numbering.entry.offsets.now numbering.entry.corners.now coords.now i) out.new }
{
    let slots = &s.slots[..s.n];
    match s.shape {
        Shape::Corners => rule::put_face(slots, numbering, i, out),
        Shape::Ups => rule::put_up(slots, numbering, i, out),
        Shape::Inner => rule::put_inner(s.slots[0], numbering, i, out),
        Shape::Vertices => rule::put_outer(s.slots[0], numbering, i as u32, out),
        _ => {}
    }
}

// The faces at a place, of a section that does not pick.
#[tactic(auto, unfolding(rule::specs::Rule::face_places))]
pub fn put_place(
    s: Section,
    bases: Bases,
    offsets: &[u32],
    corners: &[u32],
    coords: &[f32],
    i: usize,
    out: &mut Output<'_>,
)
    requires faced { Faced offsets.now corners.now }
    requires in_reach { InReach coords.now corners.now }
    requires coords_len_bound { length coords.now / 3 ≤ 60000 }
    requires sound { closes s.shape ≡ true → Sound offsets.now corners.now }
    requires low { Low bases × Ruled s }
    requires not_picks { is_picks s.shape ≡ false }
    requires i_bound { i < face_places s.shape offsets.now corners.now coords.now }
    requires room { RoomIn out.old (faces_at_place s bases no_mask [] [] offsets.now corners.now coords.now i) }
    ensures { Put out.old (faces_at_place s bases no_mask [] [] offsets.now corners.now coords.now i) out.new }
{
    match s.shape {
        Shape::Nothing => {}
        Shape::Backward => rule::put_backward(offsets, corners, i, out),
        Shape::Triangles(shorter) => rule::put_cut(shorter, offsets, corners, coords, i, out),
        _ => {
            let numbering = Numbering {
                offsets,
                corners,
                bases,
            };
            put_closed(s, numbering, coords, i, out)
        }
    }
}

// The faces of a section that does not pick.
pub fn put_places(
    s: Section,
    bases: Bases,
    offsets: &[u32],
    corners: &[u32],
    coords: &[f32],
    out: &mut Output<'_>,
)
    requires faced { Faced offsets.now corners.now }
    requires in_reach { InReach coords.now corners.now }
    requires coords_len_bound { length coords.now / 3 ≤ 60000 }
    requires sound { closes s.shape ≡ true → Sound offsets.now corners.now }
    requires low { Low bases × Ruled s }
    requires not_picks { is_picks s.shape ≡ false }
    requires room { RoomIn out.old (section_of s bases no_mask [] [] offsets.now corners.now coords.now) }
    ensures { Put out.old (section_of s bases no_mask [] [] offsets.now corners.now coords.now) out.new }
{
    for i in 0..places(s.shape, offsets, corners, coords) {
        put_place(s, bases, offsets, corners, coords, i, out);
    }
}

// The faces of a section.
pub fn put_section(
    s: Section,
    bases: Bases,
    masks: Masks<'_>,
    mesh: Ready<'_>,
    out: &mut Output<'_>,
)
    requires sound { closes s.shape ≡ true → Sound mesh.offsets.now mesh.corners.now }
    requires low { Low bases }
    requires ruled { Ruled s }
    requires room { RoomIn out.old (section_on s masks mesh bases) }
    ensures { Put out.old (section_on s masks.entry mesh.entry bases) out.new }
{
    match s.shape {
        Shape::Picks => {
            let numbering = Numbering {
                offsets: mesh.offsets,
                corners: mesh.corners,
                bases,
            };
            put_picks(s, numbering, masks, mesh.coords, out)
        }
        _ => put_places(s, bases, mesh.offsets, mesh.corners, mesh.coords, out),
    }
}
