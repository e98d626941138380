// The recipe with a ledger that is a lent run of row records: its second form, lent by a caller and with a ledger of its own.

#![tactic(auto)]

ghost use Rattle.std.specs.Prelude.{◌≡◌, length};
ghost use Rattle.chain.specs.Lent.{shown};
ghost use Rattle.runner.specs.Run.{Runs};
ghost use Rattle.recipes.specs.Recipe.{recipe_trail, Enters};
ghost use Rattle.ledger.specs.Finished.{finished_of};

use chain::{Ran, Row};
use engine::{Counts, Stop};
use mesh::{Mesh, MeshMut};
use steps::Step;

// The recipe: the core, then the rows of the finished steps.
pub fn recipe(
    rows: &mut [Row],
    steps: &[Step],
    input: Mesh<'_>,
    a: &mut MeshMut<'_>,
    b: &mut MeshMut<'_>,
    out: &mut MeshMut<'_>,
) -> Result<Counts, Stop>
    ensures { Enters (λ made. made) (recipe_trail (length rows.old) steps.now (length steps.now) (shown input.entry)) rows.old a.old b.old out.old result rows.new a.new b.new out.new }
{
    let ran = recipes::core(rows.len(), steps, input, a, b, out);
    rows[..ran.done].copy_from_slice(&ran.rows[..ran.done]);
    ran.answer
}

// How many of the n steps a recipe with this answer finished.
fn finished(answer: Result<Counts, Stop>, n: usize) -> usize
    ensures { result ≡ finished_of answer n }
{
    match answer {
        Ok(_) => n,
        Err(stop) => (stop.step as usize).saturating_sub(1),
    }
}

// The recipe with a ledger of its own, whose rows are handed back by value.
pub fn recorded(
    steps: &[Step],
    input: Mesh<'_>,
    a: &mut MeshMut<'_>,
    b: &mut MeshMut<'_>,
    out: &mut MeshMut<'_>,
) -> Ran
    ensures { Runs (recipe_trail 16 steps.now (length steps.now) (shown input.entry)) a.old b.old out.old result a.new b.new out.new }
{
    let mut rows = runner::blank_rows();
    let answer = recipe(&mut rows, steps, input, a, b, out);
    Ran {
        answer,
        rows,
        done: finished(answer, steps.len()),
    }
}
