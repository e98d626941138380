// The panel file's reader: one pass that checks the whole file, then one that writes what it holds.

#![tactic(auto)]

ghost use Rattle.std.specs.Prelude.{◌≡◌, ℕ, ◌+◌, ◌*◌, ◌<◌, ◌≤◌, ◌^◌, length};
ghost use Rattle.std.proofs.lemmas.List.Edits.{sets};
ghost use Rattle.slices.specs.Lists.{over};
ghost use Rattle.mesh.specs.Lent.{IsSameRoom};
ghost use Rattle.panel.specs.Format.{ending, checked, run, step_at, faces_from, reading, lent, Read, steps_of, fillers};
ghost use Rattle.panel.specs.Laws.{fitted_of};
ghost use Rattle.panel.specs.Written.{Placed, PutFaces};

use mesh::{MeshMut, Reason, Refusal};
use steps::Step;

// How much a file holds.
#[derive(Clone, Copy, PartialEq, Eq, Debug)]
pub struct Held {
    pub steps: u32,
    pub positions: u32,
    pub faces: u32,
    pub corners: u32,
}

// 18 where bytes are left over.
#[tactic(auto, unfolding(crate::specs::Format::ending))]
fn ending_of(bytes: &[u8], held: Held) -> Result<Held, Refusal>
    requires { (held.steps ≤ 16) × (held.positions ≤ 400) × (held.faces ≤ 400) × (held.corners ≤ 1200) }
    ensures { result ≡ ending bytes.now held.steps held.positions held.faces held.corners }
{
    let end = 12 + 16 * held.steps + 12 * held.positions + 4 * held.faces + 4 * held.corners;
    if bytes.len() != end as usize {
        return Err(Reason::Left.at(end));
    }
    Ok(held)
}

// The whole file checked: numbers 15 to 18.
pub fn check(bytes: &[u8]) -> Result<Held, Refusal>
    ensures { result ≡ checked bytes.now }
{
    let steps = parts::steps_part(bytes)?;
    let positions = parts::items_part(bytes, 4 + 16 * steps as usize, 400, 12)?;
    let at = 8 + 16 * steps as usize + 12 * positions as usize;
    let faces = parts::count_at(bytes, at, 400)?;
    let corners = parts::check_faces(bytes, at + 4, faces as usize)?;
    let held = Held {
        steps,
        positions,
        faces,
        corners,
    };
    ending_of(bytes, held)
}

// 13 where what a good file holds does not fit the lent room.
fn fitted(held: Held, lo: usize, lk: usize, lx: usize) -> Result<Held, Refusal>
    ensures { result ≡ fitted_of (Ok held) lo lk lx }
{
    if lo <= held.faces as usize {
        return Err(Reason::Room.at(0));
    }
    if lk < held.corners as usize {
        return Err(Reason::Room.at(1));
    }
    if lx / 3 < held.positions as usize {
        return Err(Reason::Room.at(2));
    }
    Ok(held)
}

// What `read` gives at n places, `size` bytes apart from `from` on, stored in `out` from `k` on.
pub fn put_run<T: Copy, F: Fn(usize) -> T>(
    from: usize,
    size: usize,
    n: usize,
    out: &mut [T],
    k: usize,
    read: F,
)
    requires bytes { (size ≤ 16) × (from + size * n < 2 ^ 63) }
    requires room { k + n ≤ length out.old }
    requires callable { (at : ℕ) → from ≤ at → at + size ≤ from + size * n → F.pre read at }
    ensures { (g : ℕ → T) → ((at : ℕ) (x : T) → from ≤ at → at + size ≤ from + size * n → F.post read at x → x ≡ g at) → out.new ≡ sets out.old k (run g size from n) }
{
    let mut at = from;
    for i in 0..n {
        out[k + i] = read(at);
        at += size;
    }
}

// n faces from a byte on, stored from the start of both slices.
fn put_faces(bytes: &[u8], from: usize, n: usize, offsets: &mut [u32], corners: &mut [u32])
    requires { Placed bytes.now from n offsets.old corners.old }
    ensures { PutFaces (faces_from bytes.now from n) offsets.old corners.old offsets.new corners.new }
{
    offsets[0] = 0;
    let mut at = from;
    let mut k = 0;
    for i in 0..n {
        let a = words::word(bytes, at) as usize;
        put_run(at + 4, 4, a, corners, k, |place| words::word(bytes, place));
        k += a;
        offsets[i + 1] = k as u32;
        at += 4 + 4 * a;
    }
}

// Reads a panel file into lent room.
pub fn read(bytes: &[u8], out: &mut MeshMut<'_>) -> Result<Held, Refusal>
    ensures read { Read (lent (reading bytes.now) (length out.old.offsets.now) (length out.old.corners.now) (length out.old.coords.now)) out.old.offsets.now out.old.corners.now out.old.coords.now result out.new.offsets.now out.new.corners.now out.new.coords.now }
    ensures same { IsSameRoom out.old out.new }
{
    let held = fitted(
        check(bytes)?,
        out.offsets.len(),
        out.corners.len(),
        out.coords.len(),
    )?;
    let at = 8 + 16 * held.steps as usize;
    let many = held.positions as usize;
    put_run(at, 4, 3 * many, out.coords, 0, |place| {
        words::float_of(words::word(bytes, place))
    });
    put_faces(
        bytes,
        at + 12 * many + 4,
        held.faces as usize,
        out.offsets,
        out.corners,
    );
    Ok(held)
}

// The step at a byte.
fn step_at(bytes: &[u8], at: usize) -> Step
    requires { at + 16 ≤ length bytes.now }
    ensures { result ≡ step_at bytes.now at }
{
    parts::step_with(
        words::word(bytes, at),
        words::word(bytes, at + 4),
        words::word(bytes, at + 8),
        words::word(bytes, at + 12),
    )
}

// The steps of a panel file, with a filler in the places after them; of a refused file none.
pub fn steps(bytes: &[u8]) -> [Step; 16]
    ensures { result ≡ over (steps_of (reading bytes.now)) fillers }
{
    let mut list = [Step::Dual; 16];
    let Ok(held) = check(bytes) else {
        return list;
    };
    put_run(4, 16, held.steps as usize, &mut list, 0, |at| {
        step_at(bytes, at)
    });
    list
}
