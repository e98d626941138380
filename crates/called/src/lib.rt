// A recipe of steps given as words, and lists given by a number, for callers that have no enums.

#![tactic(auto)]

ghost use Rattle.std.specs.Prelude.{◌≡◌, ◌/◌, cond, length, is_some};
ghost use Rattle.engine.specs.Answer.{stop_of};
ghost use Rattle.chain.specs.Lent.{shown};
ghost use Rattle.runner.specs.Run.{Wipes};
ghost use Rattle.lists.specs.Lists.{numbers_in, Lists};
ghost use Rattle.recipes.specs.Recipe.{flat_rows, Enters};
ghost use Rattle.called.specs.Called.{given_trail, known_list, list_named, coded_trail};

use engine::{Counts, Stop};
use mesh::{Mesh, MeshMut, Reason, Refusal};
use named::NamedList;

// A refusal before the first step; both work meshes read zero.
fn refuse(refusal: Refusal, a: &mut MeshMut<'_>, b: &mut MeshMut<'_>) -> Result<Counts, Stop>
    ensures answer { result ≡ Err (stop_of refusal) }
    ensures first { Wipes a.old a.new }
    ensures second { Wipes b.old b.new }
{
    runner::wipe(a);
    runner::wipe(b);
    Err(refusal.into())
}

// A recipe of the steps, with a ledger of flat numbers: code, V, E, F a row.
pub fn recipe(
    steps: &[[u32; 4]],
    ledger: &mut [u32],
    input: Mesh<'_>,
    a: &mut MeshMut<'_>,
    b: &mut MeshMut<'_>,
    out: &mut MeshMut<'_>,
) -> Result<Counts, Stop>
    ensures { Enters flat_rows (given_trail (length ledger.old / 4) steps.now (shown input.entry)) ledger.old a.old b.old out.old result ledger.new a.new b.new out.new }
{
    if steps.len() > 16 {
        return refuse(Reason::Limit.at(3), a, b);
    }
    if let Some(place) = given::strange_at(steps) {
        return refuse(Reason::Step.at(place), a, b);
    }
    let list = given::steps_of(steps);
    recipes::recipe_flat(ledger, &list[..steps.len()], input, a, b, out)
}

// The list of this number, from 1 on, with its ratio and height.
#[tactic(auto, unfolding(crate::specs::Called::known_list, crate::specs::Called::list_named))]
fn list_named(code: u32, ratio: Option<f32>, height: Option<f32>) -> Option<NamedList>
    ensures { result ≡ cond (known_list code) (Some (list_named code ratio height)) None }
{
    match code {
        1 => Some(NamedList::Bevel(ratio, height)),
        2 => Some(NamedList::Expand(ratio)),
        3 => Some(NamedList::Join(ratio)),
        4 => Some(NamedList::Medial(ratio, height)),
        5 => Some(NamedList::Meta(ratio, height)),
        6 => Some(NamedList::Needle(height)),
        7 => Some(NamedList::Ortho(ratio)),
        8 => Some(NamedList::Snub(ratio, height)),
        9 => Some(NamedList::Truncate(height)),
        10 => Some(NamedList::Zip(height)),
        _ => None,
    }
}

// The list of this number: bevel, expand, join, medial, meta, needle, ortho, snub, truncate, zip.
pub fn list(
    code: u32,
    ratio: Option<f32>,
    height: Option<f32>,
    arities: Option<&[u32]>,
    regular: bool,
    input: Mesh<'_>,
    a: &mut MeshMut<'_>,
    b: &mut MeshMut<'_>,
    out: &mut MeshMut<'_>,
) -> Result<Counts, Stop>
    ensures { Lists (coded_trail code ratio height (is_some arities.entry) (numbers_in arities.entry) regular (shown input.entry)) a.old b.old out.old result a.new b.new out.new }
{
    let Some(list) = list_named(code, ratio, height) else {
        return refuse(Reason::Step.at(0), a, b);
    };
    lists::list(list, arities, regular, input, a, b, out)
}
