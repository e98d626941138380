// An operator at work: its plan on a mesh that passed the tests up to 11.

ghost use Rattle.std.specs.Prelude.{◌≡◌, cond};
ghost use Rattle.engine.specs.Plan.{is_pairs, is_middles, is_corners, is_faces};
ghost use Rattle.engine.specs.Known.{Ruled, Known};

use crate::Plan;
use picks::{Masks, Ready};
use rule::{At, Bases, Output};
use spots::{Numbers, Points};

// A plan, its masks with their lists, and the mesh.
#[derive(Clone, Copy)]
pub struct Work<'a> {
    pub plan: Plan,
    pub masks: Masks<'a>,
    pub mesh: Ready<'a>,
    ghost masked: { masks.mask ≡ plan.mask },
    ghost known: { Known plan.asks mesh.offsets.now mesh.corners.now mesh.coords.now },
    ghost ruled: { Ruled plan },
}

// How many faces, corners and coordinates its result has.
#[derive(Clone, Copy)]
pub struct Sizes {
    pub faces: usize,
    pub corners: usize,
    pub coords: usize,
}

// The bases where the new vertices of a section of points start at `at`.
fn started(bases: Bases, q: Points, at: u32) -> Bases
    ensures { result ≡ record {
      dir = cond (is_pairs q) at bases.dir;
      edge = cond (is_middles q) at bases.edge;
      cor = cond (is_corners q) at bases.cor;
      face = cond (is_faces q) at bases.face;
    } }
{
    match q {
        Points::Nothing | Points::Olds(_) => bases,
        Points::Faces(_) | Points::Picks(_) => Bases { face: at, ..bases },
        Points::Corners(_) => Bases { cor: at, ..bases },
        Points::Pairs => Bases { dir: at, ..bases },
        Points::Middles(_) => Bases { edge: at, ..bases },
    }
}

impl Work<'_> {
    ghost use Rattle.std.specs.Prelude.{◌+◌, ◌*◌, ◌<◌, ◌≤◌, ◌^◌, length, IfSome};
    ghost use Rattle.slices.specs.Lists.{over};
    ghost use Rattle.rule.specs.Flat.{flat, offsets_of};
    ghost use Rattle.rule.specs.Slots.{Low};
    ghost use Rattle.rule.specs.Wrote.{Room};
    ghost use Rattle.rule.specs.Output.{Put, RoomIn};
    ghost use Rattle.spots.specs.Laid.{Laid, bad_at};
    ghost use Rattle.engine.specs.Plan.{plan_bases, plan_faces, plan_coords};
    ghost use Rattle.engine.specs.Work.{of_work, width_on, points_on, IsSize, front};

    // Its numbers.
    fn numbers(self) -> Numbers
        ensures { result ≡ record { ratio = self.entry.plan.ratio; height = self.entry.plan.height } }
    {
        Numbers {
            ratio: self.plan.ratio,
            height: self.plan.height,
        }
    }

    // ---- how large the result is

    // How many points a section has.
    #[tactic(auto, using(crate::specs::WorkLaws::width_bound))]
    fn width(self, q: Points) -> usize
        ensures value { result ≡ width_on self.entry q }
        ensures few { result ≤ 120000 }
    {
        q.width(self.masks, self.mesh)
    }

    // How many faces, corners and coordinates the result has.
    pub fn size(self) -> Sizes
        ensures { IsSize self.entry result }
    {
        let p = self.plan;
        let one = sections::section_size(p.one, self.masks, self.mesh);
        let two = sections::section_size(p.two, self.masks, self.mesh);
        Sizes {
            faces: one.faces + two.faces,
            corners: one.corners + two.corners,
            coords: 3 * (self.width(p.olds) + self.width(p.first) + self.width(p.second)),
        }
    }

    // ---- test 14 of the result

    // The first coordinate of a section of points that is not finite.
    #[tactic(auto, using(crate::specs::WorkLaws::bad_few))]
    fn bad(self, q: Points) -> Option<usize>
        ensures value { result ≡ bad_at (points_on self.entry q) }
        ensures few { IfSome result (λ i. i < 360000) }
    {
        q.first_bad(self.numbers(), self.masks, self.mesh)
    }

    // The first coordinate of the result that is not finite.
    #[tactic(auto, using(crate::specs::WorkLaws::bad_at_all))]
    pub fn first_bad(self) -> Option<usize>
        ensures value { result ≡ bad_at (of_work plan_coords self.entry) }
        ensures few { IfSome result (λ i. i < 2 ^ 32) }
    {
        let p = self.plan;
        let first = 3 * self.width(p.olds);
        let second = first + 3 * self.width(p.first);
        if let Some(i) = self.bad(p.olds) {
            return Some(i);
        }
        if let Some(i) = self.bad(p.first) {
            return Some(first + i);
        }
        Some(second + self.bad(p.second)?)
    }

    // ---- the points of the result

    // A section of points written from vertex `at` on; the vertex after it.
    fn put(self, q: Points, out: &mut [f32], at: usize) -> usize
        requires { 3 * at + length (points_on self q) ≤ length out.old }
        ensures { Laid out.old at (points_on self.entry q) out.new result }
    {
        q.put(self.numbers(), self.masks, self.mesh, out, at)
    }

    // The points of the result, from the front of `out` on.
    #[tactic(auto, using(crate::specs::WorkLaws::coords_long))]
    pub fn put_points(self, out: &mut [f32])
        requires { length (of_work plan_coords self) ≤ length out.old }
        ensures { out.new ≡ over (of_work plan_coords self.entry) out.old }
    {
        let p = self.plan;
        let first = self.put(p.olds, out, 0);
        let second = self.put(p.first, out, first);
        self.put(p.second, out, second);
    }

    // ---- the faces of the result

    // Where the new vertices of each kind start: those that the first section has win.
    fn bases(self) -> Bases
        ensures value { result ≡ of_work plan_bases self.entry }
        ensures low { Low result }
    {
        let first = self.width(self.plan.olds) as u32;
        let second = first + self.width(self.plan.first) as u32;
        let none = Bases {
            dir: 0,
            edge: 0,
            cor: 0,
            face: 0,
        };
        started(
            started(none, self.plan.second, second),
            self.plan.first,
            first,
        )
    }

    // Its two sections of faces, at a place of an output.
    fn put_sections(self, out: &mut Output<'_>)
        requires { RoomIn out.old (of_work plan_faces self) }
        ensures { Put out.old (of_work plan_faces self.entry) out.new }
    {
        let bases = self.bases();
        sections::put_section(self.plan.one, bases, self.masks, self.mesh, out);
        sections::put_section(self.plan.two, bases, self.masks, self.mesh, out);
    }

    // The faces of the result, from the front of the offsets and corners on.
    #[tactic(auto, using(crate::specs::WorkLaws::room_front))]
    pub fn put_faces(self, offsets: &mut [u32], corners: &mut [u32])
        requires { Room offsets.old corners.old front (of_work plan_faces self) }
        ensures offsets_after { offsets.new ≡ over (offsets_of (of_work plan_faces self.entry)) offsets.old }
        ensures corners_after { corners.new ≡ over (flat (of_work plan_faces self.entry)) corners.old }
    {
        offsets[0] = 0;
        let mut out = Output {
            offsets,
            corners,
            at: At { offs: 1, cors: 0 },
        };
        self.put_sections(&mut out);
    }
}
