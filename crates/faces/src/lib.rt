// What a face gives of its run of corners: its centroid, its average normal, whether it is regular.

#![tactic(auto)]

ghost use Rattle.std.specs.Prelude.{◌≡◌, ◌+◌, ◌*◌, ◌<◌, ◌≤◌, length};
ghost use Rattle.faces.specs.Face.{point_at, put_at, InReach, centroid_of};
ghost use Rattle.faces.specs.Normal.{taken, round_at, corner_normal, tally_to, average_normal_of};
ghost use Rattle.faces.specs.Regular.{side_of, widened, sides_to, abs_f, even, regular_of};

use point::{Point, orthogonal};

// The point of the vertex v.
pub fn point_at(coords: &[f32], v: usize) -> Point
    requires { v * 3 + 3 ≤ length coords.now }
    ensures { result ≡ point_at coords.now v }
{
    Point {
        x: coords[v * 3],
        y: coords[v * 3 + 1],
        z: coords[v * 3 + 2],
    }
}

// The point p stored at the vertex v.
pub fn put_point(out: &mut [f32], v: usize, p: Point)
    requires { v * 3 + 3 ≤ length out.old }
    ensures { out.new ≡ put_at out.old v p }
{
    out[v * 3] = p.x;
    out[v * 3 + 1] = p.y;
    out[v * 3 + 2] = p.z;
}

// The point of the corner k of the run, counted round.
pub fn round_at(coords: &[f32], face: &[u32], k: usize) -> Point
    requires face_nonzero { 0 < length face.now }
    requires in_reach { InReach coords.now face.now }
    ensures { result ≡ round_at coords.now face.now k }
{
    point_at(coords, face[k % face.len()] as usize)
}

// The normals of some corners taken off, and how many they were.
#[derive(Clone, Copy, Default)]
pub struct Tally {
    pub sum: Point,
    pub seen: usize,
}

impl Tally {
    // A corner more, by its normal o: nothing where it is all but straight.
    #[tactic(auto, unfolding(crate::specs::Normal::taken))]
    pub fn take_corner(self, o: Point) -> Tally
        requires { self.seen < 60000 }
        ensures value { result ≡ taken self o }
        ensures seen_bound { result.seen ≤ self.seen + 1 }
    {
        let m = o.mag_sq();
        if m < 0.00000001 {
            return self;
        }
        Tally {
            sum: self.sum - o / root::root(m),
            seen: self.seen + 1,
        }
    }
}

// Without its sign, but for a zero.
pub fn abs_of(d: f32) -> f32
    ensures { result ≡ abs_f d }
{
    if d < 0.0 { -d } else { d }
}

// The longest side and the shortest of some.
#[derive(Clone, Copy)]
pub struct Sides {
    pub long: f32,
    pub short: f32,
}

impl Sides {
    // A side more, of length d.
    pub fn widen(self, d: f32) -> Sides
        ensures { result ≡ widened self d }
    {
        Sides {
            long: if self.long < d { d } else { self.long },
            short: if d < self.short { d } else { self.short },
        }
    }

    // Whether the longest is about as long as the shortest.
    #[tactic(auto, unfolding(crate::specs::Regular::even))]
    pub fn are_even(self) -> bool
        ensures { result ≡ even self }
    {
        abs_of(self.long / self.short - 1.0) < 0.1
    }
}

// A face: its run of corners, few enough to be counted by an f32, and the coordinates of its mesh.
#[derive(Clone, Copy)]
pub struct Run<'a> {
    pub coords: &'a [f32],
    pub face: &'a [u32],
    ghost few: { length face.now ≤ 60000 },
    ghost reach: { InReach coords.now face.now },
}

impl Run<'_> {
    #[tactic(auto, using(crate::specs::FaceLaws::sum_step, crate::specs::FaceLaws::count_fits), unfolding(crate::specs::Face::sum_to, crate::specs::Face::centroid_of))]
    pub fn centroid(self) -> Point
        ensures { result ≡ centroid_of self.entry.coords.now self.entry.face.now }
    {
        let mut sum = Point::default();
        for &v in self.face {
            sum = sum + point_at(self.coords, v as usize);
        }
        sum / self.face.len() as f32
    }

    // The normal at the corner i and the two after it, counted round.
    #[tactic(auto, unfolding(crate::specs::Normal::corner_normal))]
    pub fn corner_normal(self, i: usize) -> Point
        requires { i < length self.face.now }
        ensures { result ≡ corner_normal self.entry.coords.now self.entry.face.now i }
    {
        let p = round_at(self.coords, self.face, i);
        let q = round_at(self.coords, self.face, i + 1);
        let r = round_at(self.coords, self.face, i + 2);
        orthogonal(p, q, r)
    }

    // What all corners give.
    #[tactic(auto, unfolding(crate::specs::Normal::tally_to))]
    pub fn tally(self) -> Tally
        ensures value { result ≡ tally_to self.entry.coords.now self.entry.face.now (length self.entry.face.now) }
        ensures seen_bound { result.seen ≤ 60000 }
    {
        let mut tally = Tally::default();
        for i in 0..self.face.len() {
            tally = tally.take_corner(self.corner_normal(i));
        }
        tally
    }

    #[tactic(auto, using(crate::specs::FaceLaws::count_fits), unfolding(crate::specs::Normal::average_normal_of, crate::specs::Normal::averaged))]
    pub fn average_normal(self) -> Point
        ensures { result ≡ average_normal_of self.entry.coords.now self.entry.face.now }
    {
        let tally = self.tally();
        if tally.seen == 0 {
            return self.centroid().normalized();
        }
        tally.sum / tally.seen as f32
    }

    // The length of the side from the corner i to the next one round.
    #[tactic(auto, unfolding(crate::specs::Regular::side_of))]
    pub fn side(self, i: usize) -> f32
        requires { i < length self.face.now }
        ensures { result ≡ side_of self.entry.coords.now self.entry.face.now i }
    {
        let p = round_at(self.coords, self.face, i);
        let q = round_at(self.coords, self.face, i + 1);
        (p - q).mag()
    }

    // The longest side and the shortest.
    #[tactic(auto, unfolding(crate::specs::Regular::sides_to))]
    pub fn sides(self) -> Sides
        requires { 0 < length self.face.now }
        ensures { result ≡ sides_to self.entry.coords.now self.entry.face.now (length self.entry.face.now) }
    {
        let first = self.side(0);
        let mut sides = Sides {
            long: first,
            short: first,
        };
        for i in 0..self.face.len() {
            sides = sides.widen(self.side(i));
        }
        sides
    }

    #[tactic(auto, unfolding(crate::specs::Regular::regular_of))]
    pub fn is_regular(self) -> bool
        requires { 0 < length self.face.now }
        ensures { result ≡ regular_of self.entry.coords.now self.entry.face.now }
    {
        self.sides().are_even()
    }
}
