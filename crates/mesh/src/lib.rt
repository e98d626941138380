// The mesh: its check by the refusal table, and its corners.

#![tactic(auto)]

ghost use Rattle.std.specs.Prelude.{◌≡◌, ◌^◌, ◌<◌, ◌≤◌, length, IfSome};
ghost use Rattle.slices.specs.First.{count, lowest};
ghost use Rattle.mesh.specs.Edges.{Faced, Sound, rank, up};
ghost use Rattle.mesh.specs.Lent.{of_mesh};
ghost use Rattle.mesh.specs.Mesh.{faces, mate, next, prev, turn};
ghost use Rattle.mesh.specs.Shape.{Full, Limited, Shaped};
ghost use Rattle.mesh.specs.Tests.{edge_tests, face_tests, faces_at, falls, limit, outside, size_tests, tests, too_many, verdict, wrong_offsets, wrong_shape};
ghost use Rattle.mesh.specs.Verdict.{refused_at, row_of};

mod surface;
mod twice;

use surface::face_count;
pub use surface::{Faces, face_after, face_of, next_in, ordered, prev_in, turned};

// The rows of the refusal table, each by its number.
#[derive(Clone, Copy)]
pub enum Reason {
    Shape = 1,
    Limit,
    Number,
    Coordinate,
    Short,
    Outside,
    Twice,
    Again,
    Alone,
    Few,
    Split,
    Large,
    Room,
    Infinite,
    Cut,
    Count,
    Step,
    Left,
}

impl Reason {
    // A refusal by this row at a place.
    pub fn at(self, place: u32) -> Refusal
        ensures { result ≡ record { number = row_of self; place = place } }
    {
        Refusal {
            number: self as u32,
            place,
        }
    }

    // Refuses by this row where it was found at a place.
    pub fn refuse(self, place: Option<usize>) -> Result<(), Refusal>
        requires { IfSome place (λ at. at < 2 ^ 32) }
        ensures { result ≡ refused_at (row_of self) place }
    {
        match place {
            None => Ok(()),
            Some(at) => Err(self.at(at as u32)),
        }
    }
}

// The most faces, corners and positions that a mesh may have, each.
const LIMIT: usize = 60000;

// Why a call is refused: the number of the row, and the place.
#[derive(Clone, Copy, PartialEq, Eq, Debug)]
pub struct Refusal {
    pub number: u32,
    pub place: u32,
}

// A mesh as it is lent: where each face starts among the corners, the corners' vertices, three numbers a vertex.
#[derive(Clone, Copy)]
pub struct Mesh<'a> {
    pub offsets: &'a [u32],
    pub corners: &'a [u32],
    pub coords: &'a [f32],
}

// Room that is lent for a mesh.
#[derive(Drop)]
pub struct MeshMut<'a> {
    pub offsets: &'a mut [u32],
    pub corners: &'a mut [u32],
    pub coords: &'a mut [f32],
}

// ---- the tests, a function each

// The lowest offset that the next one is smaller than.
fn falling_at(offsets: &[u32]) -> Option<usize>
    ensures { result ≡ lowest (falls offsets.now) (faces offsets.now) }
{
    slices::lowest(face_count(offsets), |f| offsets[f + 1] < offsets[f])
}

// Whether the offsets are of wrong shape for so many corners.
#[tactic(auto, using(slices::specs::First::lowest_any), unfolding(crate::specs::Tests::wrong_offsets))]
fn offsets_wrong(offsets: &[u32], corners: usize) -> bool
    ensures { result ≡ wrong_offsets offsets.now corners }
{
    let n = offsets.len();
    n == 0 || offsets[0] != 0 || falling_at(offsets).is_some() || offsets[n - 1] as usize != corners
}

// Test 1: 0 offsets, 1 coordinates.
#[tactic(auto, unfolding(slices::specs::First::lowest, slices::specs::First::first, crate::specs::Tests::wrong_shape))]
fn shape_at(offsets: &[u32], corners: usize, numbers: usize) -> Option<usize>
    ensures { result ≡ lowest (wrong_shape offsets.now corners numbers) 2 }
{
    if offsets_wrong(offsets, corners) {
        Some(0)
    } else if numbers % 3 != 0 {
        Some(1)
    } else {
        None
    }
}

// Test 2: 0 faces, 1 corners, 2 positions.
#[tactic(auto, unfolding(slices::specs::First::lowest, slices::specs::First::first, crate::specs::Tests::too_many))]
pub fn limit_at(faces: usize, corners: usize, numbers: usize) -> Option<usize>
    ensures { result ≡ lowest (too_many faces corners numbers) 3 }
{
    if faces > LIMIT {
        Some(0)
    } else if corners > LIMIT {
        Some(1)
    } else if numbers / 3 > LIMIT {
        Some(2)
    } else {
        None
    }
}

// Test 6: the lowest corner whose vertex number is not below `positions`.
fn outside_at(corners: &[u32], positions: usize) -> Option<usize>
    ensures { result ≡ lowest (outside corners.now positions) (length corners.now) }
{
    slices::lowest(corners.len(), |at| positions <= corners[at] as usize)
}

// How many corners have vertex `v`: as many faces, where no face has it twice.
pub fn faces_at(corners: &[u32], v: u32) -> usize
    ensures { result ≡ faces_at corners.now v }
{
    let mut m = 0;
    for u in corners {
        if *u == v {
            m += 1;
        }
    }
    m
}

// ---- the table, by groups

// Numbers 1 and 2.
#[tactic(auto, using(crate::specs::Tests::rows), unfolding(crate::specs::Tests::size_tests))]
pub fn check_size(offsets: &[u32], corners: usize, numbers: usize) -> Result<(), Refusal>
    ensures { result ≡ verdict (size_tests offsets.now corners numbers) }
{
    Reason::Shape.refuse(shape_at(offsets, corners, numbers))?;
    Reason::Limit.refuse(limit_at(face_count(offsets), corners, numbers))
}

// Numbers 4 to 7.
#[tactic(auto, using(crate::specs::Tests::rows), unfolding(crate::specs::Tests::face_tests))]
pub fn check_faces(offsets: &[u32], corners: &[u32], coords: &[f32]) -> Result<(), Refusal>
    requires shaped { Shaped offsets.now (length corners.now) }
    requires limited { Limited (faces offsets.now) (length corners.now) (length coords.now) }
    ensures { result ≡ verdict (face_tests offsets.now corners.now coords.now) }
{
    let faces = Faces { offsets, corners };
    let positions = coords.len() / 3;
    Reason::Coordinate.refuse(point::first_not_finite(coords))?;
    Reason::Short.refuse(faces.short_at())?;
    Reason::Outside.refuse(outside_at(corners, positions))?;
    Reason::Twice.refuse(faces.repeat_at(positions))
}

// Numbers 8 and 9.
#[tactic(auto, using(crate::specs::Tests::rows), unfolding(crate::specs::Tests::edge_tests))]
pub fn check_edges(offsets: &[u32], corners: &[u32]) -> Result<(), Refusal>
    requires shaped { Shaped offsets.now (length corners.now) }
    requires full { Full offsets.now }
    requires corners_len_bound { length corners.now ≤ limit }
    ensures { result ≡ verdict (edge_tests offsets.now corners.now) }
{
    let faces = Faces { offsets, corners };
    Reason::Again.refuse(faces.met_at())?;
    Reason::Alone.refuse(faces.alone_at())
}

// The whole table: any three slices.
#[tactic(auto, using(crate::specs::Tests::groups))]
pub fn check(mesh: Mesh<'_>) -> Result<(), Refusal>
    ensures { result ≡ verdict (of_mesh tests mesh.entry) }
{
    check_size(mesh.offsets, mesh.corners.len(), mesh.coords.len())?;
    check_faces(mesh.offsets, mesh.corners, mesh.coords)?;
    check_edges(mesh.offsets, mesh.corners)
}

// ---- of a mesh that passed the table

// The corner after `c`, round its face.
pub fn next_of(offsets: &[u32], corners: &[u32], c: usize) -> usize
    requires faced { Faced offsets.now corners.now }
    requires c_in_bounds { c < length corners.now }
    ensures { result ≡ next offsets.now c }
{
    Faces { offsets, corners }.next(c)
}

// The corner before `c`, round its face.
pub fn prev_of(offsets: &[u32], corners: &[u32], c: usize) -> usize
    requires faced { Faced offsets.now corners.now }
    requires c_in_bounds { c < length corners.now }
    ensures { result ≡ prev offsets.now c }
{
    Faces { offsets, corners }.prev(c)
}

// The corner whose window is that of `c` turned round.
pub fn mate_of(offsets: &[u32], corners: &[u32], c: usize) -> usize
    requires sound { Sound offsets.now corners.now }
    requires c_in_bounds { c < length corners.now }
    ensures { result ≡ mate offsets.now corners.now c }
{
    Faces { offsets, corners }.mate(c)
}

// The next corner of the same vertex, through the edge from the vertex to its predecessor.
pub fn turn_at(offsets: &[u32], corners: &[u32], c: usize) -> usize
    requires shaped { Shaped offsets.now (length corners.now) }
    requires c_in_bounds { c < length corners.now }
    ensures { result ≡ turn offsets.now corners.now c }
{
    Faces { offsets, corners }.turn(c)
}

// Whether the window of `c` ascends.
pub fn up_of(offsets: &[u32], corners: &[u32], c: usize) -> bool
    requires faced { Faced offsets.now corners.now }
    requires c_in_bounds { c < length corners.now }
    ensures { result ≡ up offsets.now corners.now c }
{
    Faces { offsets, corners }.up(c)
}

// How many windows below `stop` ascend.
pub fn ups_below(offsets: &[u32], corners: &[u32], stop: usize) -> usize
    requires faced { Faced offsets.now corners.now }
    requires stop_in_bounds { stop ≤ length corners.now }
    ensures { result ≡ count (up offsets.now corners.now) stop }
{
    Faces { offsets, corners }.ups_below(stop)
}

// The number of the edge of `c` among the edges.
pub fn rank_of(offsets: &[u32], corners: &[u32], c: usize) -> usize
    requires sound { Sound offsets.now corners.now }
    requires c_in_bounds { c < length corners.now }
    ensures { result ≡ rank offsets.now corners.now c }
{
    Faces { offsets, corners }.rank(c)
}
