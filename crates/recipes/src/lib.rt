// The recipe: its core, which hands the rows back by value, and its first form, with a ledger of flat numbers.

#![tactic(auto)]

ghost use Rattle.std.specs.Prelude.{◌≡◌, ◌*◌, ◌/◌, ◌≤◌, length};
ghost use Rattle.slices.specs.Lists.{over};
ghost use Rattle.chain.specs.Lent.{shown};
ghost use Rattle.runner.specs.Run.{Runs};
ghost use Rattle.recipes.specs.Recipe.{recipe_trail, flat_row, flat_rows, Enters};

use chain::{Ran, Row};
use engine::{Counts, Stop};
use mesh::{Mesh, MeshMut, Reason};
use picks::Mask;
use steps::Step;

// The recipe with its rows by value; `lent` is how many rows the ledger has.
pub fn core(
    lent: usize,
    steps: &[Step],
    input: Mesh<'_>,
    a: &mut MeshMut<'_>,
    b: &mut MeshMut<'_>,
    out: &mut MeshMut<'_>,
) -> Ran
    ensures { Runs (recipe_trail lent steps.now (length steps.now) (shown input.entry)) a.old b.old out.old result a.new b.new out.new }
{
    if lent < steps.len() && steps.len() <= 16 {
        runner::wipe(a);
        runner::wipe(b);
        return runner::none_done(Err(Reason::Room.at(3).into()));
    }
    let mask = Mask {
        arities: false,
        numbers: false,
        regular: false,
    };
    runner::run(steps, mask, &[], &[], input, a, b, out)
}

// A row as four numbers.
fn flat_row(row: Row) -> [u32; 4]
    ensures { result ≡ flat_row row }
{
    [row.code, row.v, row.e, row.f]
}

// Writes rows as flat numbers, and leaves what follows.
fn write_flat(ledger: &mut [u32], rows: &[Row])
    requires { 4 * length rows.now ≤ length ledger.old }
    ensures { ledger.new ≡ over (flat_rows rows.now) ledger.old }
{
    for (i, row) in rows.iter().enumerate() {
        ledger[4 * i..4 * i + 4].copy_from_slice(&flat_row(*row));
    }
}

// The recipe with a ledger of flat numbers: code, V, E, F a row.
pub fn recipe_flat(
    ledger: &mut [u32],
    steps: &[Step],
    input: Mesh<'_>,
    a: &mut MeshMut<'_>,
    b: &mut MeshMut<'_>,
    out: &mut MeshMut<'_>,
) -> Result<Counts, Stop>
    ensures { Enters flat_rows (recipe_trail (length ledger.old / 4) steps.now (length steps.now) (shown input.entry)) ledger.old a.old b.old out.old result ledger.new a.new b.new out.new }
{
    let ran = core(ledger.len() / 4, steps, input, a, b, out);
    write_flat(ledger, &ran.rows[..ran.done]);
    ran.answer
}
