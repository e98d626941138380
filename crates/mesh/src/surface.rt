// The faces of a mesh: the runs of their corners, and its corners one after the other, round a face and round a vertex.

ghost use Rattle.std.specs.Prelude.{◌≡◌, ◌<◌, ◌≤◌, length};
ghost use Rattle.slices.specs.First.{count, first, is_at, lowest};
ghost use Rattle.mesh.specs.Edges.{edge, rank, up};
ghost use Rattle.mesh.specs.Mesh.{face_after, face_of, faces, mate, next, next_in, ordered_of, prev, prev_in, run, turn, turned_of, window, window_is};
ghost use Rattle.mesh.specs.Scan.{Behind, Rising, Skipped, none_is};
ghost use Rattle.mesh.specs.Shape.{Full, In, Shaped};
ghost use Rattle.mesh.specs.Tests.{alone, limit, met, repeats, short};
ghost use Rattle.mesh.specs.Twice.{Inside};

use crate::twice::twice_in;

// The faces of a mesh by its offsets, which are of right shape for its corners.
#[derive(Clone, Copy)]
pub struct Faces<'a> {
    pub offsets: &'a [u32],
    pub corners: &'a [u32],
    ghost shaped: { Shaped offsets.now (length corners.now) },
}

impl<'a> Faces<'a> {
    // The corners of face `f`.
    pub fn run(self, f: usize) -> &'a [u32]
        requires { f < faces self.offsets.now }
        ensures { result.now ≡ run self.entry.offsets.now self.entry.corners.now f }
    {
        &self.corners[self.offsets[f] as usize..self.offsets[f + 1] as usize]
    }

    // Whether face `f` has under three corners.
    #[tactic(auto, using(crate::specs::Shape::length_run))]
    fn is_short(self, f: usize) -> bool
        requires { f < faces self.offsets.now }
        ensures { result ≡ short self.entry.offsets.now f }
    {
        self.run(f).len() < 3
    }

    // Test 5: the lowest face under three corners.
    pub fn short_at(self) -> Option<usize>
        ensures { result ≡ lowest (short self.entry.offsets.now) (faces self.entry.offsets.now) }
    {
        slices::lowest(face_count(self.offsets), |f| self.is_short(f))
    }

    // Whether face `f` has a vertex twice.
    fn repeats(self, positions: usize, f: usize) -> bool
        requires inside { Inside self.corners.now positions }
        requires positions_le_limit { positions ≤ limit }
        requires f_bound { f < faces self.offsets.now }
        ensures { result ≡ repeats self.entry.offsets.now self.entry.corners.now f }
    {
        twice_in(self.run(f), positions)
    }

    // Test 7: the lowest face with a vertex twice.
    pub fn repeat_at(self, positions: usize) -> Option<usize>
        requires inside { Inside self.corners.now positions }
        requires positions_le_limit { positions ≤ limit }
        ensures { result ≡ lowest (repeats self.entry.offsets.now self.entry.corners.now) (faces self.entry.offsets.now) }
    {
        slices::lowest(face_count(self.offsets), |f| self.repeats(positions, f))
    }

    // ---- from a corner whose face is known

    // The corner after `c` round face `f`.
    pub fn next_in(self, f: usize, c: usize) -> usize
        requires { In self.offsets.now f c }
        ensures { result ≡ next_in self.entry.offsets.now f c }
    {
        next_in(self.offsets, f, c)
    }

    // The corner before `c` round face `f`.
    pub fn prev_in(self, f: usize, c: usize) -> usize
        requires { In self.offsets.now f c }
        ensures { result ≡ prev_in self.entry.offsets.now f c }
    {
        prev_in(self.offsets, f, c)
    }

    // The face of corner `c + 1`, where `c` is of face `f`.
    pub fn face_after(self, f: usize, c: usize) -> usize
        requires { In self.offsets.now f c }
        ensures { result ≡ face_after self.entry.offsets.now f c }
    {
        face_after(self.offsets, f, c)
    }

    // The directed edge that starts at corner `c`, which is of face `f`.
    #[tactic(auto, using(crate::specs::Shape::after_in), unfolding(crate::specs::Mesh::window))]
    pub fn window_in(self, f: usize, c: usize) -> [u32; 2]
        requires { In self.offsets.now f c }
        ensures { result ≡ window self.entry.offsets.now self.entry.corners.now c }
    {
        let n = self.next_in(f, c);
        [self.corners[c], self.corners[n]]
    }

    // Whether it ascends.
    #[tactic(auto, unfolding(crate::specs::Edges::up, crate::specs::Mesh::window))]
    pub fn up_in(self, f: usize, c: usize) -> bool
        requires { In self.offsets.now f c }
        ensures { result ≡ up self.entry.offsets.now self.entry.corners.now c }
    {
        let [from, to] = self.window_in(f, c);
        from < to
    }

    // Whether it is `e`.
    #[tactic(auto, unfolding(crate::specs::Mesh::window))]
    fn window_is(self, e: [u32; 2], f: usize, c: usize) -> bool
        requires { In self.offsets.now f c }
        ensures { result ≡ window_is self.entry.offsets.now self.entry.corners.now e c }
    {
        let [from, to] = self.window_in(f, c);
        from == e[0] && to == e[1]
    }

    // The lowest corner below `stop` whose directed edge is `e`: only at corners where `e` starts the rest is looked at.
    pub fn find_window(self, e: [u32; 2], stop: usize) -> usize
        requires { stop ≤ length self.corners.now }
        ensures { result ≡ first (window_is self.entry.offsets.now self.entry.corners.now e) stop }
    {
        let mut f = 0;
        let mut c = 0;
        while c < stop {
            c = starts_at(self.corners, e[0], c, stop);
            if c < stop {
                f = face_on(self.offsets, f, c);
                if self.window_is(e, f, c) {
                    return c;
                }
                c += 1;
            }
        }
        c
    }

    // Whether the directed edge of corner `c`, which is of face `f`, is met before it.
    fn met_in(self, f: usize, c: usize) -> bool
        requires { In self.offsets.now f c }
        ensures { result ≡ met self.entry.offsets.now self.entry.corners.now c }
    {
        self.find_window(self.window_in(f, c), c) < c
    }

    // Test 8: the lowest corner whose directed edge is met before it.
    pub fn met_at(self) -> Option<usize>
        requires { Full self.offsets.now }
        ensures { result ≡ lowest (met self.entry.offsets.now self.entry.corners.now) (length self.entry.corners.now) }
    {
        let mut f = 0;
        for c in 0..self.corners.len() {
            if self.met_in(f, c) {
                return Some(c);
            }
            f = self.face_after(f, c);
        }
        None
    }

    // The corner whose directed edge is the reverse of that of `c`, which is of face `f`; the number of corners where there is none.
    #[tactic(auto, unfolding(crate::specs::Mesh::mate))]
    pub fn mate_in(self, f: usize, c: usize) -> usize
        requires { In self.offsets.now f c }
        ensures { result ≡ mate self.entry.offsets.now self.entry.corners.now c }
    {
        let e = turned(self.window_in(f, c));
        self.find_window(e, self.corners.len())
    }

    // Whether the directed edge of corner `c`, which is of face `f`, has no reverse.
    fn alone_in(self, f: usize, c: usize) -> bool
        requires { In self.offsets.now f c }
        ensures { result ≡ alone self.entry.offsets.now self.entry.corners.now c }
    {
        self.mate_in(f, c) >= self.corners.len()
    }

    // Test 9: the lowest corner whose directed edge has no reverse.
    pub fn alone_at(self) -> Option<usize>
        requires { Full self.offsets.now }
        ensures { result ≡ lowest (alone self.entry.offsets.now self.entry.corners.now) (length self.entry.corners.now) }
    {
        let mut f = 0;
        for c in 0..self.corners.len() {
            if self.alone_in(f, c) {
                return Some(c);
            }
            f = self.face_after(f, c);
        }
        None
    }

    // ---- from any corner

    // The corner after `c`, round its face.
    #[tactic(auto, unfolding(crate::specs::Mesh::next))]
    pub fn next(self, c: usize) -> usize
        requires { c < length self.corners.now }
        ensures { result ≡ next self.entry.offsets.now c }
    {
        self.next_in(face_of(self.offsets, c), c)
    }

    // The corner before `c`, round its face.
    #[tactic(auto, unfolding(crate::specs::Mesh::prev))]
    pub fn prev(self, c: usize) -> usize
        requires { c < length self.corners.now }
        ensures { result ≡ prev self.entry.offsets.now c }
    {
        self.prev_in(face_of(self.offsets, c), c)
    }

    // The corner whose directed edge is the reverse of that of `c`.
    pub fn mate(self, c: usize) -> usize
        requires { c < length self.corners.now }
        ensures { result ≡ mate self.entry.offsets.now self.entry.corners.now c }
    {
        self.mate_in(face_of(self.offsets, c), c)
    }

    // The next corner of the same vertex, through the edge from the vertex to its predecessor.
    #[tactic(auto, unfolding(crate::specs::Mesh::turn, crate::specs::Mesh::prev))]
    pub fn turn(self, c: usize) -> usize
        requires { c < length self.corners.now }
        ensures { result ≡ turn self.entry.offsets.now self.entry.corners.now c }
    {
        let f = face_on(self.offsets, 0, c);
        self.mate_in(f, self.prev_in(f, c))
    }

    // The edge of `c`: its directed edge, the smaller number first.
    pub fn edge(self, c: usize) -> [u32; 2]
        requires { c < length self.corners.now }
        ensures { result ≡ edge self.entry.offsets.now self.entry.corners.now c }
    {
        ordered(self.window_in(face_of(self.offsets, c), c))
    }

    // Whether the directed edge of `c` ascends.
    pub fn up(self, c: usize) -> bool
        requires { c < length self.corners.now }
        ensures { result ≡ up self.entry.offsets.now self.entry.corners.now c }
    {
        self.up_in(face_of(self.offsets, c), c)
    }

    // How many directed edges of corners below `stop` ascend.
    pub fn ups_below(self, stop: usize) -> usize
        requires full { Full self.offsets.now }
        requires stop_in_bounds { stop ≤ length self.corners.now }
        ensures { result ≡ count (up self.entry.offsets.now self.entry.corners.now) stop }
    {
        let mut m = 0;
        let mut f = 0;
        for c in 0..stop {
            if self.up_in(f, c) {
                m += 1;
            }
            f = self.face_after(f, c);
        }
        m
    }

    // The number of the edge of `c` among the edges.
    #[tactic(auto, unfolding(crate::specs::Edges::rank))]
    pub fn rank(self, c: usize) -> usize
        requires full { Full self.offsets.now }
        requires paired { mate self.offsets.now self.corners.now c < length self.corners.now }
        requires c_in_bounds { c < length self.corners.now }
        ensures { result ≡ rank self.entry.offsets.now self.entry.corners.now c }
    {
        let stop = if self.up(c) { c } else { self.mate(c) };
        self.ups_below(stop)
    }
}

// How many faces there are.
pub fn face_count(offsets: &[u32]) -> usize
    ensures { result ≡ faces offsets.now }
{
    offsets.len().saturating_sub(1)
}

// The corner after `c` round face `f`.
pub fn next_in(offsets: &[u32], f: usize, c: usize) -> usize
    requires { In offsets.now f c }
    ensures { result ≡ next_in offsets.now f c }
{
    let end = offsets[f + 1] as usize;
    if c + 1 < end {
        c + 1
    } else {
        offsets[f] as usize
    }
}

// The corner before `c` round face `f`.
pub fn prev_in(offsets: &[u32], f: usize, c: usize) -> usize
    requires { In offsets.now f c }
    ensures { result ≡ prev_in offsets.now f c }
{
    if (offsets[f] as usize) < c {
        c - 1
    } else {
        offsets[f + 1] as usize - 1
    }
}

// The face of corner `c + 1`, where `c` is of face `f`.
pub fn face_after(offsets: &[u32], f: usize, c: usize) -> usize
    requires { In offsets.now f c }
    ensures { result ≡ face_after offsets.now f c }
{
    let end = offsets[f + 1] as usize;
    if c + 1 < end { f } else { f + 1 }
}

// Turned round.
pub fn turned(e: [u32; 2]) -> [u32; 2]
    ensures { result ≡ turned_of e }
{
    [e[1], e[0]]
}

// The smaller number first.
pub fn ordered(e: [u32; 2]) -> [u32; 2]
    ensures { result ≡ ordered_of e }
{
    if e[1] < e[0] { turned(e) } else { [e[0], e[1]] }
}

// The face of corner `c`: the lowest that ends past it.
pub fn face_of(offsets: &[u32], c: usize) -> usize
    ensures { result ≡ face_of offsets.now c }
{
    face_from(offsets, 0, c)
}

// Whether none of four numbers is `v`.
fn none_is(v: u32, p: u32, q: u32, r: u32, s: u32) -> bool
    ensures { result ≡ none_is v p q r s }
{
    p != v && q != v && r != v && s != v
}

// Past corners from `from` on that are not vertex `v`, four at a time, and not past `stop`.
fn leap(corners: &[u32], v: u32, from: usize, stop: usize) -> usize
    requires from_le_stop { from ≤ stop }
    requires stop_in_bounds { stop ≤ length corners.now }
    ensures { Skipped (is_at corners.now v) stop from result }
{
    let mut c = from;
    while 4 <= stop - c
        && none_is(
            v,
            corners[c],
            corners[c + 1],
            corners[c + 2],
            corners[c + 3],
        )
    {
        c += 4;
    }
    c
}

// The first corner from `from` on and below `stop` that is vertex `v`; `stop` where there is none.
fn starts_at(corners: &[u32], v: u32, from: usize, stop: usize) -> usize
    requires from_le_stop { from ≤ stop }
    requires stop_in_bounds { stop ≤ length corners.now }
    ensures { Skipped (is_at corners.now v) stop from result }
{
    for c in leap(corners, v, from, stop)..stop {
        if corners[c] == v {
            return c;
        }
    }
    stop
}

// The face of corner `c`, found from face `f` on.
#[tactic(auto, unfolding(crate::specs::Mesh::face_of))]
fn face_from(offsets: &[u32], f: usize, c: usize) -> usize
    requires { Behind offsets.now c f }
    ensures { result ≡ face_of offsets.now c }
{
    let faces = face_count(offsets);
    for g in f..faces {
        if c < offsets[g + 1] as usize {
            return g;
        }
    }
    faces
}

// A face from `f` on that is not past the face of corner `c`: faces are passed over eight at a time.
fn pass_faces(offsets: &[u32], f: usize, c: usize) -> usize
    requires rising { Rising offsets.now }
    requires behind { Behind offsets.now c f }
    ensures { Behind offsets.now c result }
{
    let mut g = f;
    while g + 8 < offsets.len() && offsets[g + 8] as usize <= c {
        g += 8;
    }
    g
}

// The face of corner `c` of a mesh, found from face `f` on.
fn face_on(offsets: &[u32], f: usize, c: usize) -> usize
    requires rising { Rising offsets.now }
    requires behind { Behind offsets.now c f }
    ensures { result ≡ face_of offsets.now c }
{
    let g = pass_faces(offsets, f, c);
    face_from(offsets, g, c)
}
