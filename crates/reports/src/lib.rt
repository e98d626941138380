// The report of a panel file, bytes in, bytes out: the file is read, its recipe is run and its lines are written.

#![tactic(auto)]

ghost use Rattle.std.specs.Prelude.{◌≡◌, ◌+◌, ◌*◌, ◌≤◌, length, take};
ghost use Rattle.steps.specs.Steps.{mesh};
ghost use Rattle.io.specs.Counts.{IsPrefixLen};
ghost use Rattle.chain.specs.Lent.{shown};
ghost use Rattle.text.specs.Text.{Put};
ghost use Rattle.lines.specs.Lines.{lines_of};
ghost use Rattle.recipes.specs.Recipe.{recipe_trail};
ghost use Rattle.reports.specs.Report.{roomy, report_of, Holds, ForFile};

use mesh::{Mesh, MeshMut};
use panel::Held;
use steps::Step;

// One byte more than the longest good file, so that bytes left over are seen.
pub const MOST_BYTES: usize = 11469;

// No report is longer.
pub const MOST_TEXT: usize = 2550;

// Runs a recipe through meshes of its own, which have room for every result within the limits, and writes its lines.
fn put_recipe(text: &mut [u8], steps: &[Step], input: Mesh<'_>) -> usize
    requires { length steps.now ≤ 16 }
    ensures put { Put (lines_of (recipe_trail 16 steps.now (length steps.now) (shown input.entry) roomy roomy roomy)) 0 text.old result text.new }
    ensures upper_bound { result ≤ 2550 }
{
    let mut ao = [0u32; 60001];
    let mut ac = [0u32; 60000];
    let mut ap = [0.0f32; 180000];
    let mut bo = [0u32; 60001];
    let mut bc = [0u32; 60000];
    let mut bp = [0.0f32; 180000];
    let mut xo = [0u32; 60001];
    let mut xc = [0u32; 60000];
    let mut xp = [0.0f32; 180000];
    let mut a = MeshMut {
        offsets: &mut ao,
        corners: &mut ac,
        coords: &mut ap,
    };
    let mut b = MeshMut {
        offsets: &mut bo,
        corners: &mut bc,
        coords: &mut bp,
    };
    let mut out = MeshMut {
        offsets: &mut xo,
        corners: &mut xc,
        coords: &mut xp,
    };
    let ran = ledger::recorded(steps, input, &mut a, &mut b, &mut out);
    lines::put_lines(text, ran, steps.len())
}

// The mesh of a file that was read, at the front of the room that it was read into.
fn mesh_of<'a>(room: &'a MeshMut<'_>, held: Held) -> Mesh<'a>
    requires { (held.faces + 1 ≤ length room.now.offsets.now) × ((held.corners ≤ length room.now.corners.now) × (3 * held.positions ≤ length room.now.coords.now)) }
    ensures { shown result ≡ mesh (take (held.faces + 1) room.now.offsets.now) (take held.corners room.now.corners.now) (take (3 * held.positions) room.now.coords.now) }
{
    Mesh {
        offsets: &room.offsets[..held.faces as usize + 1],
        corners: &room.corners[..held.corners as usize],
        coords: &room.coords[..3 * held.positions as usize],
    }
}

// Writes the report of a panel file, and answers how long it is. Where the lent bytes are fewer, its front is written.
pub fn report(bytes: &[u8], text: &mut [u8]) -> usize
    ensures put { Put (report_of bytes.now) 0 text.old result text.new }
    ensures upper_bound { result ≤ 2550 }
{
    let mut offsets = [0u32; 401];
    let mut corners = [0u32; 1200];
    let mut coords = [0.0f32; 1200];
    let mut room = MeshMut {
        offsets: &mut offsets,
        corners: &mut corners,
        coords: &mut coords,
    };
    let held = match panel::read(bytes, &mut room) {
        Ok(held) => held,
        Err(refusal) => return lines::put_file(text, refusal.number, refusal.place),
    };
    let input = mesh_of(&room, held);
    let steps = panel::steps(bytes);
    put_recipe(text, &steps[..held.steps as usize], input)
}

// The same of a file of which the first n bytes were read into `front`: whatever lies past a full `front`, the report is that of the whole file.
pub fn report_front(front: &[u8; MOST_BYTES], n: usize, text: &mut [u8; MOST_TEXT]) -> usize
    ensures for_file { ForFile front.now n (λ file. Holds (report_of file) text.old result text.new) }
    ensures prefix_len { IsPrefixLen result text.new }
{
    let got = n.min(MOST_BYTES);
    let whole: &[u8] = front;
    let lent: &mut [u8] = text;
    report(&whole[..got], lent)
}
