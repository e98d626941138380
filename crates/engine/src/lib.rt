// The engine: an operator as data, checked and carried out by one function.

#![tactic(auto)]

mod work;

ghost use Rattle.std.specs.Prelude.{◌≡◌, ◌+◌, ◌/◌, ◌≤◌, length, IfOk};
ghost use Rattle.slices.specs.First.{lowest};
ghost use Rattle.mesh.specs.Lent.{of_mesh};
ghost use Rattle.mesh.specs.Tests.{verdict};
ghost use Rattle.mesh.specs.Edges.{Faced};
ghost use Rattle.engine.specs.Answer.{stop_of};
ghost use Rattle.engine.specs.Result.{cramped, room_tests, asked, Fills};
ghost use Rattle.engine.specs.Plan.{plan_outcome};
ghost use Rattle.engine.specs.Known.{Ruled, Known, admission};
ghost use Rattle.engine.specs.ResultLaws.{Fits};

use mesh::{Mesh, MeshMut, Reason, Refusal};
use picks::{Mask, Masks, Ready};
use rule::Section;
use spots::Points;
use work::Work;

// The counts of a mesh: positions, edges, faces.
#[derive(Clone, Copy)]
pub struct Counts {
    pub v: u32,
    pub e: u32,
    pub f: u32,
}

// Why a call is refused: the number of the row, the place, and the step of a list; outside a list the step is 0.
#[derive(Clone, Copy, PartialEq, Eq, Debug)]
pub struct Stop {
    pub number: u32,
    pub place: u32,
    pub step: u32,
}

impl From<Refusal> for Stop {
    ghost from_gives = { λ r s. s ≡ stop_of r };

    fn from(refusal: Refusal) -> Stop {
        Stop {
            number: refusal.number,
            place: refusal.place,
            step: 0,
        }
    }
}

// Which groups of the table an operator asks: up to 7, up to 9, up to 11.
#[derive(Clone, Copy)]
pub enum Asks {
    Open,
    Closed,
    Round,
}

// An operator: which tests it asks; its three sections of points and two of faces; its numbers and the masks that it was given.
#[derive(Clone, Copy)]
pub struct Plan {
    pub asks: Asks,
    pub olds: Points,
    pub first: Points,
    pub second: Points,
    pub ratio: f32,
    pub height: f32,
    pub mask: Mask,
    pub one: Section,
    pub two: Section,
}

// ---- the tests of a result, and the answer of a call

// Test 13, of a result of so many faces, which has an offset more: 0 offsets, 1 corners, 2 coordinates.
#[tactic(auto, unfolding(slices::specs::First::lowest, slices::specs::First::first, crate::specs::Result::cramped))]
fn cramped_at(nf: usize, nc: usize, nx: usize, lo: usize, lc: usize, lx: usize) -> Option<usize>
    ensures { result ≡ lowest (cramped (nf + 1) nc nx lo lc lx) 3 }
{
    [lo <= nf, lc < nc, lx < nx].iter().position(|short| *short)
}

// Tests 12 and 13, of a result of so many faces, corners and coordinates, in an output with room for so many.
#[tactic(auto, using(mesh::specs::Tests::rows), unfolding(crate::specs::Result::room_tests))]
pub fn check_room(
    nf: usize,
    nc: usize,
    nx: usize,
    lo: usize,
    lc: usize,
    lx: usize,
) -> Result<(), Refusal>
    ensures value { result ≡ verdict (room_tests nf nc nx lo lc lx) }
    ensures fits { IfOk result (λ _. Fits nf nc nx lo lc lx) }
{
    Reason::Large.refuse(mesh::limit_at(nf, nc, nx))?;
    Reason::Room.refuse(cramped_at(nf, nc, nx, lo, lc, lx))
}

// The counts of a mesh with so many faces, corners and coordinates.
pub fn counts_of(nf: usize, nc: usize, nx: usize) -> Counts
    requires { (nf ≤ 60000) × ((nc ≤ 60000) × (nx / 3 ≤ 60000)) }
    ensures { result ≡ record { v = nx / 3; e = nc / 2; f = nf } }
{
    Counts {
        v: (nx / 3) as u32,
        e: (nc / 2) as u32,
        f: nf as u32,
    }
}

// ---- a call

// Tests 8 to 11, as far as they are asked.
#[tactic(auto, using(crate::specs::ResultLaws::asked_is))]
fn check_asked(asks: Asks, mesh: Mesh<'_>) -> Result<(), Refusal>
    requires faced { Faced mesh.offsets.now mesh.corners.now }
    requires coords_len_bound { length mesh.coords.now / 3 ≤ 60000 }
    ensures { result ≡ verdict (of_mesh (asked asks) mesh.entry) }
{
    match asks {
        Asks::Open => Ok(()),
        Asks::Closed => mesh::check_edges(mesh.offsets, mesh.corners),
        Asks::Round => {
            mesh::check_edges(mesh.offsets, mesh.corners)?;
            fans::check_round(mesh.offsets, mesh.corners, mesh.coords.len() / 3)
        }
    }
}

// Tests 1 to 11 of an operator, where `own` is the verdict of its own.
fn check_mesh(own: Result<(), Refusal>, asks: Asks, mesh: Mesh<'_>) -> Result<(), Refusal>
    ensures value { result ≡ of_mesh (admission asks own) mesh.entry }
    ensures known { IfOk result (λ _. Known asks mesh.entry.offsets.now mesh.entry.corners.now mesh.entry.coords.now) }
{
    mesh::check_size(mesh.offsets, mesh.corners.len(), mesh.coords.len())?;
    own?;
    mesh::check_faces(mesh.offsets, mesh.corners, mesh.coords)?;
    check_asked(asks, mesh)
}

// An operator carried out: the whole table, and the result written, or nothing.
pub fn run<'a>(
    own: Result<(), Refusal>,
    p: Plan,
    arities: &'a [u32],
    numbers: &'a [u32],
    mesh: Mesh<'a>,
    out: &mut MeshMut<'_>,
) -> Result<Counts, Stop>
    requires { Ruled p }
    ensures { Fills (of_mesh (plan_outcome p arities.now numbers.now) mesh.entry own) out.old result out.new }
{
    check_mesh(own, p.asks, mesh)?;
    let work = Work {
        plan: p,
        masks: Masks {
            mask: p.mask,
            arities,
            numbers,
        },
        mesh: Ready {
            offsets: mesh.offsets,
            corners: mesh.corners,
            coords: mesh.coords,
        },
    };
    let size = work.size();
    let (lo, lc, lx) = (out.offsets.len(), out.corners.len(), out.coords.len());
    check_room(size.faces, size.corners, size.coords, lo, lc, lx)?;
    Reason::Infinite.refuse(work.first_bad())?;
    work.put_faces(out.offsets, out.corners);
    work.put_points(out.coords);
    Ok(counts_of(size.faces, size.corners, size.coords))
}
