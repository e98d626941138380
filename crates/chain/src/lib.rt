// The steps of a list one after the other, from one work mesh into the other, and the last into the output.

#![tactic(auto)]

ghost use Rattle.std.specs.Prelude.{◌≡◌, ◌+◌, ◌<◌, ◌∷◌, length, IfOk};
ghost use Rattle.steps.specs.Steps.{masks, step_on};
ghost use Rattle.chain.specs.Lent.{shown, held, space, IsKept, AreKept};
ghost use Rattle.chain.specs.Trail.{lastly, trail};
ghost use Rattle.chain.specs.Chained.{row_with, finish_of, extent_of, front, front_at, Spans, Within, Ready, from_answer, Chained};

use engine::{Counts, Stop};
use mesh::{Mesh, MeshMut};
use picks::Mask;
use steps::Step;

// A row of the ledger.
#[derive(Clone, Copy, Default)]
pub struct Row {
    pub code: u32,
    pub v: u32,
    pub e: u32,
    pub f: u32,
}

// What came of a list: its answer, the rows of its finished steps, and how many these are.
#[derive(Clone, Copy)]
pub struct Ran {
    pub answer: Result<Counts, Stop>,
    pub rows: [Row; 16],
    pub done: usize,
}

// How many offsets, corners and coordinates of a work mesh are the mesh at its front.
#[derive(Clone, Copy)]
pub struct Extent {
    pub offsets: usize,
    pub corners: usize,
    pub coords: usize,
}

// The row of a step and the counts of what it made.
fn row_of(s: Step, c: Counts) -> Row
    ensures { result ≡ row_with s c }
{
    Row {
        code: steps::code(s),
        v: c.v,
        e: c.e,
        f: c.f,
    }
}

// A step has answered, after k that are done: its row, or where it was refused.
pub fn finish(made: Result<Counts, Stop>, s: Step, k: usize, mut rows: [Row; 16]) -> Ran
    requires { k < 16 }
    ensures { result ≡ finish_of made s k rows }
{
    match made {
        Ok(counts) => {
            rows[k] = row_of(s, counts);
            Ran {
                answer: made,
                rows,
                done: k + 1,
            }
        }
        Err(stop) => Ran {
            answer: Err(Stop {
                step: (k + 1) as u32,
                ..stop
            }),
            rows,
            done: k,
        },
    }
}

// A step on a mesh, after k that are done.
pub fn step(
    s: Step,
    k: usize,
    rows: [Row; 16],
    mask: Mask,
    arities: &[u32],
    numbers: &[u32],
    mesh: Mesh<'_>,
    out: &mut MeshMut<'_>,
) -> Ran
    requires { k < 16 }
    ensures stepped { Chained (lastly s (k + 1) (step_on (masks mask arities.now numbers.now) s (shown mesh.entry) (space out.old))) k rows result (held out.old) (held out.new) }
    ensures kept { IsKept out.old out.new }
{
    let made = steps::apply(s, mask, arities, numbers, mesh, out);
    finish(made, s, k, rows)
}

// The extent of a mesh with these counts in a work mesh with these offsets: its last offset is the number of its corners.
pub fn extent_of(c: Counts, offsets: &[u32]) -> Extent
    requires { c.f < length offsets.now }
    ensures { result ≡ extent_of c offsets.now }
{
    let f = c.f as usize;
    Extent {
        offsets: f + 1,
        corners: offsets[f] as usize,
        coords: 3 * c.v as usize,
    }
}

// The same of a work mesh that holds it at its front.
fn extent_in(c: Counts, room: &MeshMut<'_>) -> Extent
    requires { Within c (held room.now) }
    ensures { result ≡ extent_of c (held room.now).offsets }
{
    extent_of(c, room.offsets)
}

// The mesh of this extent at the front of a work mesh.
fn front<'a>(room: &'a MeshMut<'_>, e: Extent) -> Mesh<'a>
    requires { Spans e (held room.now) }
    ensures { shown result ≡ front_at e (held room.now) }
{
    Mesh {
        offsets: &room.offsets[..e.offsets],
        corners: &room.corners[..e.corners],
        coords: &room.coords[..e.coords],
    }
}

// A step and the rest, after k that are done, on the mesh of this extent at the front of the work mesh a: each step writes the other work
// mesh, and the last one the output.
pub fn chain_on(
    e: Extent,
    k: usize,
    rows: [Row; 16],
    s: Step,
    rest: &[Step],
    mask: Mask,
    arities: &[u32],
    numbers: &[u32],
    a: &mut MeshMut<'_>,
    b: &mut MeshMut<'_>,
    out: &mut MeshMut<'_>,
) -> Ran
    requires most { k + length rest.now < 16 }
    requires within { Spans e (held a.old) }
    ensures chained { Chained (trail (masks mask arities.now numbers.now) (s ∷ rest.now) (k + 1) (front_at e (held a.old)) (space b.old) (space a.old) (space out.old)) k rows result (held out.old) (held out.new) }
    ensures kept { AreKept a.old b.old out.old a.new b.new out.new }
{
    let mesh = front(a, e);
    let Some((next, rest)) = rest.split_first() else {
        return step(s, k, rows, mask, arities, numbers, mesh, out);
    };
    let ran = step(s, k, rows, mask, arities, numbers, mesh, b);
    let Ok(counts) = ran.answer else {
        return ran;
    };
    let e = extent_in(counts, b);
    let (k, rows) = (ran.done, ran.rows);
    chain_on(e, k, rows, *next, rest, mask, arities, numbers, b, a, out)
}

// A step and the rest, after what came of those before them, whose mesh is at the front of the work mesh a: each step writes the other
// work mesh, and the last one the output.
pub fn chain(
    ran: Ran,
    s: Step,
    rest: &[Step],
    mask: Mask,
    arities: &[u32],
    numbers: &[u32],
    a: &mut MeshMut<'_>,
    b: &mut MeshMut<'_>,
    out: &mut MeshMut<'_>,
) -> Ran
    requires { IfOk ran.answer (λ c. Ready (length rest.now) ran.done c (held a.old)) }
    ensures chained { Chained (from_answer ran.answer (λ c. trail (masks mask arities.now numbers.now) (s ∷ rest.now) (ran.done + 1) (front c (held a.old)) (space b.old) (space a.old) (space out.old))) ran.done ran.rows result (held out.old) (held out.new) }
    ensures kept { AreKept a.old b.old out.old a.new b.new out.new }
{
    let Ok(counts) = ran.answer else {
        return ran;
    };
    let e = extent_in(counts, a);
    let (k, rows) = (ran.done, ran.rows);
    chain_on(e, k, rows, s, rest, mask, arities, numbers, a, b, out)
}
