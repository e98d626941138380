// The panel file's writer: the answer is settled first, then the bytes are written from front to back.

#![tactic(auto)]

ghost use Rattle.std.specs.Prelude.{◌≡◌, ℕ, ◌+◌, ◌*◌, ◌≤◌, List, [], ◌∷◌, length};
ghost use Rattle.std.proofs.lemmas.List.Edits.{sets};
ghost use Rattle.mesh.specs.Mesh.{faces, faces_of};
ghost use Rattle.mesh.specs.Shape.{Shaped};
ghost use Rattle.writer.specs.File.{flat_map, ratio_in, height_in, flag_of, bits_in, step_words, face_words, bytes_all, file_of, given};
ghost use Rattle.writer.specs.Answer.{Wrote};
ghost use Rattle.writer.specs.Puts.{limits_of, shape_first, Filing};

use mesh::{Mesh, Reason, Refusal};
use steps::Step;

fn ratio_in(s: Step) -> Option<f32>
    ensures { result ≡ ratio_in s }
{
    match s {
        Step::Ambo(t)
        | Step::Chamfer(t)
        | Step::Gyro(t, _)
        | Step::Propellor(t)
        | Step::Whirl(t, _) => t,
        Step::Dual
        | Step::Kis(_)
        | Step::Quinto(_)
        | Step::Reflect
        | Step::Reverse
        | Step::Triangulate => None,
    }
}

fn height_in(s: Step) -> Option<f32>
    ensures { result ≡ height_in s }
{
    match s {
        Step::Gyro(_, h) | Step::Kis(h) | Step::Quinto(h) | Step::Whirl(_, h) => h,
        Step::Ambo(_)
        | Step::Chamfer(_)
        | Step::Dual
        | Step::Propellor(_)
        | Step::Reflect
        | Step::Reverse
        | Step::Triangulate => None,
    }
}

fn flag_of(t: Option<f32>) -> u32
    ensures value { result ≡ flag_of t }
    ensures upper_bound { result ≤ 1 }
{
    u32::from(t.is_some())
}

fn flags_of(t: Option<f32>, h: Option<f32>) -> u32
    ensures { result ≡ flag_of t + 2 * flag_of h }
{
    flag_of(t) + 2 * flag_of(h)
}

fn bits_in(t: Option<f32>) -> u32
    ensures { result ≡ bits_in t }
{
    t.map_or(0, words::bits_of)
}

// Four words.
fn put_four(out: &mut [u8], at: usize, a: u32, b: u32, c: u32, d: u32)
    requires { at + 16 ≤ length out.old }
    ensures { out.new ≡ sets out.old at (bytes_all (a ∷ b ∷ c ∷ d ∷ [])) }
{
    words::put_word(out, at, a);
    words::put_word(out, at + 4, b);
    words::put_word(out, at + 8, c);
    words::put_word(out, at + 12, d);
}

fn put_step(out: &mut [u8], at: usize, s: Step)
    requires { at + 16 ≤ length out.old }
    ensures { out.new ≡ sets out.old at (bytes_all (step_words s)) }
{
    let t = ratio_in(s);
    let h = height_in(s);
    put_four(
        out,
        at,
        steps::code(s),
        flags_of(t, h),
        bits_in(t),
        bits_in(h),
    );
}

fn put_steps(steps: &[Step], out: &mut [u8], from: usize)
    requires { from + 16 * length steps.now ≤ length out.old }
    ensures { out.new ≡ sets out.old from (bytes_all (flat_map step_words steps.now)) }
{
    for (i, s) in steps.iter().enumerate() {
        put_step(out, from + 16 * i, *s);
    }
}

// The word of each item, one after the other.
fn put_each<T: Copy, F: Fn(T) -> u32>(items: &[T], out: &mut [u8], from: usize, word: F)
    requires room { from + 4 * length items.now ≤ length out.old }
    requires callable { F.IsAlwaysCallable word }
    ensures { (h : T → List ℕ) → ((x : T) → length (h x) ≡ 1) → ((x : T) (n : ℕ) → F.post word x n → n ∷ [] ≡ h x) → out.new ≡ sets out.old from (bytes_all (flat_map h items.now)) }
{
    for (i, x) in items.iter().enumerate() {
        words::put_word(out, from + 4 * i, word(*x));
    }
}

// A face: its arity and its corners.
fn put_face(run: &[u32], out: &mut [u8], at: usize)
    requires { (at + 4 + 4 * length run.now ≤ length out.old) × (length run.now ≤ 1200) }
    ensures { out.new ≡ sets out.old at (bytes_all (face_words run.now)) }
{
    words::put_word(out, at, run.len() as u32);
    put_each(run, out, at + 4, |w| w);
}

fn put_faces(offsets: &[u32], corners: &[u32], out: &mut [u8], from: usize)
    requires shaped { Shaped offsets.now (length corners.now) }
    requires corners_in_bounds { (from + 4 * (faces offsets.now + length corners.now) ≤ length out.old) × (length corners.now ≤ 1200) }
    ensures { out.new ≡ sets out.old from (bytes_all (flat_map face_words (faces_of offsets.now corners.now))) }
{
    for f in 0..offsets.len() - 1 {
        let a = offsets[f] as usize;
        let b = offsets[f + 1] as usize;
        put_face(&corners[a..b], out, from + 4 * (f + a));
    }
}

// The limits of the file, and the room for its bytes.
fn limits(n: usize, lo: usize, lk: usize, lx: usize, room: usize) -> Result<u32, Refusal>
    ensures { result ≡ limits_of n lo lk lx room }
{
    if 16 < n {
        return Err(Reason::Limit.at(3));
    }
    if 401 < lo {
        return Err(Reason::Limit.at(0));
    }
    if 1200 < lk {
        return Err(Reason::Limit.at(1));
    }
    if 400 < lx / 3 {
        return Err(Reason::Limit.at(2));
    }
    let size = 8 + 16 * n + 4 * lx + 4 * lo + 4 * lk;
    if room < size {
        return Err(Reason::Room.at(0));
    }
    Ok(size as u32)
}

// Number 1 of the mesh's own table comes first; its number 2 is left to the file's limits.
fn shape_first(size: Result<(), Refusal>, then: Result<u32, Refusal>) -> Result<u32, Refusal>
    ensures { result ≡ shape_first size then }
{
    let Err(refusal) = size else {
        return then;
    };
    if refusal.number == 1 {
        return Err(refusal);
    }
    then
}

// The three sections, each after its count.
fn put_file(steps: &[Step], mesh: Mesh<'_>, out: &mut [u8])
    requires { Filing mesh.offsets.now mesh.corners.now (length steps.now) (length mesh.coords.now) (length out.old) }
    ensures { out.new ≡ sets out.old 0 (file_of (given steps.now (length steps.now) mesh.entry.offsets.now mesh.entry.corners.now mesh.entry.coords.now)) }
{
    words::put_word(out, 0, steps.len() as u32);
    put_steps(steps, out, 4);
    let at = 4 + 16 * steps.len();
    words::put_word(out, at, (mesh.coords.len() / 3) as u32);
    put_each(mesh.coords, out, at + 4, words::bits_of);
    let on = at + 4 + 4 * mesh.coords.len();
    words::put_word(out, on, (mesh.offsets.len() - 1) as u32);
    put_faces(mesh.offsets, mesh.corners, out, on + 4);
}

// Writes a panel file of steps and a mesh into lent bytes.
pub fn write(steps: &[Step], mesh: Mesh<'_>, out: &mut [u8]) -> Result<u32, Refusal>
    ensures { Wrote steps.now (length steps.now) mesh.entry.offsets.now mesh.entry.corners.now mesh.entry.coords.now out.old result out.new }
{
    let size = mesh::check_size(mesh.offsets, mesh.corners.len(), mesh.coords.len());
    let fit = limits(
        steps.len(),
        mesh.offsets.len(),
        mesh.corners.len(),
        mesh.coords.len(),
        out.len(),
    );
    let written = shape_first(size, fit)?;
    put_file(steps, mesh, out);
    Ok(written)
}
