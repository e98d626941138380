// A list of steps, run through two lent work meshes.

#![tactic(auto)]

ghost use Rattle.std.specs.Prelude.{◌≡◌, length};
ghost use Rattle.steps.specs.Steps.{masks};
ghost use Rattle.chain.specs.Lent.{shown, held, space, AreKept};
ghost use Rattle.chain.specs.Chained.{Chained};
ghost use Rattle.runner.specs.Run.{blanks, run_trail, Runs, Wipes};

use chain::{Ran, Row};
use engine::{Counts, Stop};
use mesh::{Mesh, MeshMut, Reason};
use picks::Mask;
use steps::Step;

// Rows that are not filled yet.
pub fn blank_rows() -> [Row; 16]
    ensures { result ≡ blanks }
{
    [Row::default(); 16]
}

// An answer where no step is done.
pub fn none_done(answer: Result<Counts, Stop>) -> Ran
    ensures { result ≡ record { answer = answer; rows = blanks; done = 0 } }
{
    Ran {
        answer,
        rows: blank_rows(),
        done: 0,
    }
}

// At most 16 steps; none copy the mesh.
fn begin(
    steps: &[Step],
    mask: Mask,
    arities: &[u32],
    numbers: &[u32],
    input: Mesh<'_>,
    a: &mut MeshMut<'_>,
    b: &mut MeshMut<'_>,
    out: &mut MeshMut<'_>,
) -> Ran
    ensures chained { Chained (run_trail (masks mask arities.now numbers.now) steps.now (length steps.now) (shown input.entry) (space a.old) (space b.old) (space out.old)) 0 blanks result (held out.old) (held out.new) }
    ensures kept { AreKept a.old b.old out.old a.new b.new out.new }
{
    if steps.len() > 16 {
        return none_done(Err(Reason::Limit.at(3).into()));
    }
    let Some((s, rest)) = steps.split_first() else {
        return none_done(copies::copy(input, out));
    };
    start::start(
        *s,
        rest,
        blank_rows(),
        mask,
        arities,
        numbers,
        input,
        a,
        b,
        out,
    )
}

// A work mesh that reads zero.
pub fn wipe(work: &mut MeshMut<'_>)
    ensures { Wipes work.old work.new }
{
    work.offsets.fill(0);
    work.corners.fill(0);
    work.coords.fill(0.0);
}

// The steps on a mesh, through the work meshes a and b. Both work meshes read zero on return, whatever came of it.
pub fn run(
    steps: &[Step],
    mask: Mask,
    arities: &[u32],
    numbers: &[u32],
    input: Mesh<'_>,
    a: &mut MeshMut<'_>,
    b: &mut MeshMut<'_>,
    out: &mut MeshMut<'_>,
) -> Ran
    ensures { Runs (run_trail (masks mask arities.now numbers.now) steps.now (length steps.now) (shown input.entry)) a.old b.old out.old result a.new b.new out.new }
{
    let ran = begin(steps, mask, arities, numbers, input, a, b, out);
    wipe(a);
    wipe(b);
    ran
}
