// New points: what an operator makes of the old positions, of a face, of a corner and of an edge, by sections.

#![tactic(auto)]

ghost use Rattle.std.specs.Prelude.{◌≡◌, List, ℕ, Float, ◌+◌, ◌-◌, ◌*◌, ◌/◌, ◌<◌, ◌≤◌, length};
ghost use Rattle.faces.specs.Face.{point_at, coords_of};
ghost use Rattle.mesh.specs.Mesh.{faces, start, run, face_of};
ghost use Rattle.spots.specs.Points.{change_of, spot_of, between, tip_of, middle_of, from_p, to_p, spots_at, places_of, points_of, width_of};
ghost use Rattle.spots.specs.Laid.{Laid, bad_at};
ghost use Rattle.slices.specs.Lists.{each};
ghost use Rattle.spots.specs.Spots.{list_of, Holds, Gives};

use faces::Run;
use picks::{Masks, Ready};
use point::Point;

// What becomes of an old position: kept, times 1.5 of the ratio, or with y turned round.
#[derive(Clone, Copy)]
pub enum Change {
    Kept,
    Scaled,
    Flipped,
}

// A face's new point: its centroid, that raised along the normal, or the centroid's direction raised along the normal.
#[derive(Clone, Copy)]
pub enum Spot {
    Centre,
    Apex,
    Crown,
}

// A corner's new point: on the way to the centroid; on the way from a point of its edge to the raised centroid; or the
// third of its edge's ends and the centroid.
#[derive(Clone, Copy)]
pub enum Tip {
    Inset,
    Swirl,
    Third,
}

// An edge's one new point: between its ends by the ratio, or their sum times the height.
#[derive(Clone, Copy)]
pub enum Middle {
    Split,
    Sum,
}

// A section of points: none; one a position, a face, a picked face, a corner; two an edge; one an edge.
#[derive(Clone, Copy)]
pub enum Points {
    Nothing,
    Olds(Change),
    Faces(Spot),
    Picks(Spot),
    Corners(Tip),
    Pairs,
    Middles(Middle),
}

// The numbers of an operator.
#[derive(Clone, Copy)]
pub struct Numbers {
    pub ratio: f32,
    pub height: f32,
}

// What a section has at one place.
#[derive(Clone, Copy)]
pub enum Spots {
    None,
    One(Point),
    Two(Point, Point),
}

// ---- one point

// A part t of the way from p to q.
pub fn between(t: f32, p: Point, q: Point) -> Point
    ensures { result ≡ between t p q }
{
    p + (q - p) * t
}

impl Change {
    // What becomes of the old position p.
    #[tactic(auto, unfolding(crate::specs::Points::change_of))]
    pub fn of(self, ratio: f32, p: Point) -> Point
        ensures { result ≡ change_of self ratio p }
    {
        match self {
            Change::Kept => p,
            Change::Scaled => p * (1.5 * ratio),
            Change::Flipped => Point {
                x: p.x,
                y: -p.y,
                z: p.z,
            },
        }
    }

    // What becomes of position `i`.
    pub fn at(self, ratio: f32, mesh: Ready<'_>, i: usize) -> Point
        requires { i < length mesh.coords.now / 3 }
        ensures { result ≡ change_of self ratio (point_at mesh.entry.coords.now i) }
    {
        self.of(ratio, faces::point_at(mesh.coords, i))
    }
}

impl Spot {
    // The new point of a face.
    #[tactic(auto, unfolding(crate::specs::Points::spot_of))]
    pub fn of(self, height: f32, run: Run<'_>) -> Point
        ensures { result ≡ spot_of self height run.entry.coords.now run.entry.face.now }
    {
        let centre = run.centroid();
        match self {
            Spot::Centre => centre,
            Spot::Apex => centre + run.average_normal() * height,
            Spot::Crown => centre.normalized() + run.average_normal() * height,
        }
    }

    // The new point of face `f`.
    pub fn at(self, height: f32, mesh: Ready<'_>, f: usize) -> Point
        requires { f < faces mesh.offsets.now }
        ensures { result ≡ spot_of self height mesh.entry.coords.now (run mesh.entry.offsets.now mesh.entry.corners.now f) }
    {
        self.of(height, mesh.run(f))
    }
}

impl Tip {
    // The new point of the corner `j` of a face.
    #[tactic(auto, unfolding(crate::specs::Points::tip_of))]
    pub fn of(self, numbers: Numbers, run: Run<'_>, j: usize) -> Point
        requires { j < length run.face.now }
        ensures { result ≡ tip_of self numbers.ratio numbers.height run.entry.coords.now run.entry.face.now j }
    {
        let p = faces::round_at(run.coords, run.face, j);
        let q = faces::round_at(run.coords, run.face, j + 1);
        match self {
            Tip::Inset => between(numbers.ratio, p, run.centroid()),
            Tip::Swirl => {
                let apex = Spot::Apex.of(numbers.height, run);
                between(numbers.ratio, between(numbers.ratio, p, q), apex)
            }
            Tip::Third => (p + q + run.centroid()) / 3.0,
        }
    }

    // The new point of corner `c`.
    #[tactic(auto, using(crate::specs::Ready::own_face, crate::specs::Ready::own_from, crate::specs::Ready::own_to))]
    pub fn at(self, numbers: Numbers, mesh: Ready<'_>, c: usize) -> Point
        requires { c < length mesh.corners.now }
        ensures { result ≡ tip_of self numbers.ratio numbers.height mesh.entry.coords.now (run mesh.entry.offsets.now mesh.entry.corners.now (face_of mesh.entry.offsets.now c)) (c - start mesh.entry.offsets.now (face_of mesh.entry.offsets.now c)) }
    {
        let f = mesh::face_of(mesh.offsets, c);
        let j = c - mesh.offsets[f] as usize;
        self.of(numbers, mesh.run(f), j)
    }
}

impl Middle {
    // The one new point of an edge from p to q.
    #[tactic(auto, unfolding(crate::specs::Points::middle_of))]
    pub fn of(self, numbers: Numbers, p: Point, q: Point) -> Point
        ensures { result ≡ middle_of self numbers.ratio numbers.height p q }
    {
        match self {
            Middle::Split => p * numbers.ratio + q * (1.0 - numbers.ratio),
            Middle::Sum => (p + q) * numbers.height,
        }
    }
}

// The ends of the edge that starts at corner `c`.
#[tactic(auto, using(crate::specs::Ready::next_place))]
fn ends(mesh: Ready<'_>, c: usize) -> (Point, Point)
    requires { c < length mesh.corners.now }
    ensures from { result.0 ≡ from_p mesh.entry.corners.now mesh.entry.coords.now c }
    ensures to { result.1 ≡ to_p mesh.entry.offsets.now mesh.entry.corners.now mesh.entry.coords.now c }
{
    let n = mesh::next_of(mesh.offsets, mesh.corners, c);
    let v = mesh.corners[c] as usize;
    let w = mesh.corners[n] as usize;
    (
        faces::point_at(mesh.coords, v),
        faces::point_at(mesh.coords, w),
    )
}

// ---- what a section has at one place

impl Spots {
    // How many coordinates it has.
    pub fn len(self) -> usize
        ensures { result ≡ length (list_of self) }
    {
        match self {
            Spots::None => 0,
            Spots::One(_) => 3,
            Spots::Two(_, _) => 6,
        }
    }

    // The first of them that is not finite.
    #[tactic(auto, using(crate::specs::Laid::bad_nothing))]
    pub fn first_bad(self) -> Option<usize>
        ensures { result ≡ bad_at (list_of self) }
    {
        match self {
            Spots::None => None,
            Spots::One(p) => point::first_not_finite(&[p.x, p.y, p.z]),
            Spots::Two(p, q) => point::first_not_finite(&[p.x, p.y, p.z, q.x, q.y, q.z]),
        }
    }

    // Written from vertex `at` on; the vertex after it.
    pub fn put(self, out: &mut [f32], at: usize) -> usize
        requires { 3 * at + length (list_of self) ≤ length out.old }
        ensures { Laid out.old at (list_of self) out.new result }
    {
        match self {
            Spots::None => at,
            Spots::One(p) => {
                faces::put_point(out, at, p);
                at + 1
            }
            Spots::Two(p, q) => {
                faces::put_point(out, at, p);
                faces::put_point(out, at + 1, q);
                at + 2
            }
        }
    }
}

impl Points {
    // How many places the section looks at.
    #[tactic(auto, unfolding(crate::specs::Points::places_of))]
    pub fn places(self, mesh: Ready<'_>) -> usize
        ensures { result ≡ places_of self mesh.entry.offsets.now mesh.entry.corners.now mesh.entry.coords.now }
    {
        match self {
            Points::Nothing => 0,
            Points::Olds(_) => mesh.coords.len() / 3,
            Points::Faces(_) | Points::Picks(_) => mesh.offsets.len() - 1,
            Points::Corners(_) | Points::Pairs | Points::Middles(_) => mesh.corners.len(),
        }
    }

    // What it has at place `i`.
    #[tactic(auto, unfolding(crate::specs::Points::spots_at, crate::specs::Points::places_of))]
    pub fn spots_at(self, numbers: Numbers, masks: Masks<'_>, mesh: Ready<'_>, i: usize) -> Spots
        requires { i < places_of self mesh.offsets.now mesh.corners.now mesh.coords.now }
        ensures { Holds result (spots_at self numbers.ratio numbers.height masks.entry.mask masks.entry.arities.now masks.entry.numbers.now mesh.entry.offsets.now mesh.entry.corners.now mesh.entry.coords.now i) }
    {
        match self {
            Points::Olds(s) => Spots::One(s.at(numbers.ratio, mesh, i)),
            Points::Faces(s) => Spots::One(s.at(numbers.height, mesh, i)),
            Points::Picks(s) if masks.picks(mesh, i) => Spots::One(s.at(numbers.height, mesh, i)),
            Points::Corners(s) => Spots::One(s.at(numbers, mesh, i)),
            Points::Pairs if mesh::up_of(mesh.offsets, mesh.corners, i) => {
                let (p, q) = ends(mesh, i);
                Spots::Two(between(numbers.ratio, p, q), between(numbers.ratio, q, p))
            }
            Points::Middles(s) if mesh::up_of(mesh.offsets, mesh.corners, i) => {
                let (p, q) = ends(mesh, i);
                Spots::One(s.of(numbers, p, q))
            }
            Points::Nothing | Points::Picks(_) | Points::Pairs | Points::Middles(_) => Spots::None,
        }
    }

    // How many points it has.
    #[tactic(auto, using(mesh::specs::Edges::edges_few), unfolding(crate::specs::Points::width_of, crate::specs::Points::places_of))]
    pub fn width(self, masks: Masks<'_>, mesh: Ready<'_>) -> usize
        ensures { result ≡ width_of self masks.entry.mask masks.entry.arities.now masks.entry.numbers.now mesh.entry.offsets.now mesh.entry.corners.now mesh.entry.coords.now }
    {
        let corners = mesh.corners.len();
        match self {
            Points::Picks(_) => masks.picks_below(mesh, mesh.offsets.len() - 1),
            Points::Pairs => 2 * mesh::ups_below(mesh.offsets, mesh.corners, corners),
            Points::Middles(_) => mesh::ups_below(mesh.offsets, mesh.corners, corners),
            _ => self.places(mesh),
        }
    }

    // The first coordinate of the section that is not finite.
    #[tactic(auto, using(crate::specs::Ready::places_few), unfolding(crate::specs::Points::points_of, crate::specs::Points::places_of, crate::specs::Points::spots_at))]
    pub fn first_bad(self, numbers: Numbers, masks: Masks<'_>, mesh: Ready<'_>) -> Option<usize>
        ensures { result ≡ bad_at (points_of self numbers.ratio numbers.height masks.entry.mask masks.entry.arities.now masks.entry.numbers.now mesh.entry.offsets.now mesh.entry.corners.now mesh.entry.coords.now) }
    {
        let n = self.places(mesh);
        match self {
            // A loop of their own: they are many, and each is soon done.
            Points::Olds(s) => bad_all(n, |i| Spots::One(s.at(numbers.ratio, mesh, i))),
            _ => bad_all(n, |i| self.spots_at(numbers, masks, mesh, i)),
        }
    }

    // Its points, written from vertex `at` on; the vertex after them.
    #[tactic(auto, unfolding(crate::specs::Points::points_of, crate::specs::Points::places_of, crate::specs::Points::spots_at))]
    pub fn put(
        self,
        numbers: Numbers,
        masks: Masks<'_>,
        mesh: Ready<'_>,
        out: &mut [f32],
        at: usize,
    ) -> usize
        requires { 3 * at + length (points_of self numbers.ratio numbers.height masks.mask masks.arities.now masks.numbers.now mesh.offsets.now mesh.corners.now mesh.coords.now) ≤ length out.old }
        ensures { Laid out.old at (points_of self numbers.ratio numbers.height masks.entry.mask masks.entry.arities.now masks.entry.numbers.now mesh.entry.offsets.now mesh.entry.corners.now mesh.entry.coords.now) out.new result }
    {
        let n = self.places(mesh);
        match self {
            // A loop of their own: they are many, and each is soon done.
            Points::Olds(s) => put_all(n, |i| Spots::One(s.at(numbers.ratio, mesh, i)), out, at),
            _ => put_all(n, |i| self.spots_at(numbers, masks, mesh, i), out, at),
        }
    }
}

// ---- at each place in turn

// The first coordinate that is not finite of what `spots` gives at the first `n` places.
#[tactic(auto, using(crate::specs::Laid::passing, crate::specs::Spots::list_few))]
fn bad_all<F: Fn(usize) -> Spots>(n: usize, spots: F) -> Option<usize>
    requires callable { (k : ℕ) → k < n → F.pre spots k }
    requires few { n ≤ 60000 }
    ensures { (g : ℕ → List Float) → Gives (F.post spots) n g → result ≡ bad_at (each g n) }
{
    let mut at = 0;
    for i in 0..n {
        let found = spots(i);
        if let Some(j) = found.first_bad() {
            return Some(at + j);
        }
        at += found.len();
    }
    None
}

// What `spots` gives at the first `n` places, written from vertex `at` on; the vertex after it.
fn put_all<F: Fn(usize) -> Spots>(n: usize, spots: F, out: &mut [f32], at: usize) -> usize
    requires callable { (k : ℕ) → k < n → F.pre spots k }
    requires room { (g : ℕ → List Float) × Gives (F.post spots) n g × (3 * at + length (each g n) ≤ length out.old) }
    ensures { (g : ℕ → List Float) → Gives (F.post spots) n g → Laid out.old at (each g n) out.new result }
{
    let mut v = at;
    for i in 0..n {
        v = spots(i).put(out, v);
    }
    v
}
