// The calls of a list and of a recipe.

ghost use Rattle.std.specs.Prelude.{◌≡◌, IfErr};
ghost use Rattle.runs.specs.More.{Fits};

use crate::more::More;
use crate::work::Work;
use cases::answers::Called;
use cases::case::Case;
use cases::fault::Fault;
use cases::header::Header;
use cases::owned::numbers;
use cases::text::Fields;
use engine::{Counts, Stop};
use named::NamedList;
use std::alloc::Global;
use std::io;
use std::io::Write;
use steps::Step;

// The list of a header, with the numbers that it takes.
pub fn list_of(header: &Header) -> Result<NamedList, Fault>
    ensures { IfErr result (λ why. why ≡ Fault.BadCase) }
{
    let ratio = header.ratio;
    let height = header.height;
    match header.code {
        31 => Ok(NamedList::Bevel(ratio, height)),
        32 => Ok(NamedList::Expand(ratio)),
        33 => Ok(NamedList::Join(ratio)),
        34 => Ok(NamedList::Medial(ratio, height)),
        35 => Ok(NamedList::Meta(ratio, height)),
        36 => Ok(NamedList::Needle(height)),
        37 => Ok(NamedList::Ortho(ratio)),
        38 => Ok(NamedList::Snub(ratio, height)),
        39 => Ok(NamedList::Truncate(height)),
        40 => Ok(NamedList::Zip(height)),
        _ => Err(Fault::BadCase),
    }
}

fn call_list(list: NamedList, case: &Case, work: &mut Work) -> Result<Counts, Stop> {
    let flags = case.header.flags;
    lists::list(
        list,
        flags.arities.then_some(case.arities.as_slice()),
        flags.regular,
        case.mesh.as_mesh(),
        &mut work.a.as_room(),
        &mut work.b.as_room(),
        &mut work.x.as_room(),
    )
}

// The answer of a list for the mesh of a case, with all that was lent to it.
pub fn write_list<W: Write>(
    list: NamedList,
    case: &Case,
    more: &More,
    alloc: Global,
    out: &mut W,
) -> io::Result<()> {
    let mut work = Work::lent(alloc, &case.header, more)?;
    let answer = call_list(list, case, &mut work);
    write!(out, "{}{work}", Called(answer))
}

fn call_recipe(
    ledger: &mut [u32],
    steps: &[Step],
    case: &Case,
    work: &mut Work,
) -> Result<Counts, Stop> {
    recipes::recipe_flat(
        ledger,
        steps,
        case.mesh.as_mesh(),
        &mut work.a.as_room(),
        &mut work.b.as_room(),
        &mut work.x.as_room(),
    )
}

// The answer of a recipe, with its ledger.
pub fn write_recipe<W: Write>(
    steps: &[Step],
    case: &Case,
    more: &More,
    alloc: Global,
    out: &mut W,
) -> io::Result<()>
    requires { Fits more.now }
{
    let mut ledger = numbers(alloc, 4 * more.rows, case.header.fill)?;
    let mut work = Work::lent(alloc, &case.header, more)?;
    let answer = call_recipe(&mut ledger, steps, case, &mut work);
    write!(out, "{} l{}{work}", Called(answer), Fields(&ledger))
}
