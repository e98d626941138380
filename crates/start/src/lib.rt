// The steps of a list from the input on: the first one, and the recursion over the others.

#![tactic(auto)]

ghost use Rattle.std.specs.Prelude.{◌<◌, ◌∷◌, length};
ghost use Rattle.steps.specs.Steps.{masks};
ghost use Rattle.chain.specs.Lent.{shown, held, space, AreKept};
ghost use Rattle.chain.specs.Trail.{trail};
ghost use Rattle.chain.specs.Chained.{Chained};

use chain::{Ran, Row};
use mesh::{Mesh, MeshMut};
use picks::Mask;
use steps::Step;

// A step and the rest: the first reads the input and writes the work mesh a.
pub fn start(
    s: Step,
    rest: &[Step],
    rows: [Row; 16],
    mask: Mask,
    arities: &[u32],
    numbers: &[u32],
    input: Mesh<'_>,
    a: &mut MeshMut<'_>,
    b: &mut MeshMut<'_>,
    out: &mut MeshMut<'_>,
) -> Ran
    requires { length rest.now < 16 }
    ensures chained { Chained (trail (masks mask arities.now numbers.now) (s ∷ rest.now) 1 (shown input.entry) (space a.old) (space b.old) (space out.old)) 0 rows result (held out.old) (held out.new) }
    ensures kept { AreKept a.old b.old out.old a.new b.new out.new }
{
    let Some((next, rest)) = rest.split_first() else {
        return chain::step(s, 0, rows, mask, arities, numbers, input, out);
    };
    let ran = chain::step(s, 0, rows, mask, arities, numbers, input, a);
    chain::chain(ran, *next, rest, mask, arities, numbers, a, b, out)
}
