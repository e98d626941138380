// A list of operators that document 01 names, as a run of its steps.

#![tactic(auto)]

ghost use Rattle.std.specs.Prelude.{◌≡◌, Bool, is_some};
ghost use Rattle.chain.specs.Lent.{shown};
ghost use Rattle.named.specs.Named.{masked, list_masks};
ghost use Rattle.lists.specs.Lists.{list_trail, numbers_in, Lists};

use engine::{Counts, Stop};
use mesh::{Mesh, MeshMut};
use named::NamedList;
use picks::Mask;

// The arities that a list takes: those that are given, or its own.
fn arities_of<'a>(l: NamedList, arities: Option<&'a [u32]>) -> Option<&'a [u32]>
    ensures { (regular : Bool) → list_masks l (is_some arities.entry) (numbers_in arities.entry) regular ≡ masked (is_some result) (numbers_in result) regular }
{
    if named::defaults(l, arities.is_some()) {
        Some(&[3])
    } else {
        arities
    }
}

// A list on a mesh, through the work meshes a and b. Both work meshes read zero on return.
pub fn list(
    l: NamedList,
    arities: Option<&[u32]>,
    regular: bool,
    input: Mesh<'_>,
    a: &mut MeshMut<'_>,
    b: &mut MeshMut<'_>,
    out: &mut MeshMut<'_>,
) -> Result<Counts, Stop>
    ensures { Lists (list_trail l (list_masks l (is_some arities.entry) (numbers_in arities.entry) regular) (shown input.entry)) a.old b.old out.old result a.new b.new out.new }
{
    let arities = arities_of(l, arities);
    let mask = Mask {
        arities: arities.is_some(),
        numbers: false,
        regular,
    };
    let steps = named::steps_of(l);
    let ran = runner::run(
        steps.as_slice(),
        mask,
        arities.unwrap_or(&[]),
        &[],
        input,
        a,
        b,
        out,
    );
    ran.answer
}
