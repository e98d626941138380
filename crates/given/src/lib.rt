// Steps given as words, four a step, for callers that have no enums: what they stand for, and the steps of a panel file, read and written.

#![tactic(auto)]

ghost use Rattle.std.specs.Prelude.{◌≡◌, cond, ◌+◌, ◌*◌, ◌≤◌, min, length};
ghost use Rattle.std.proofs.lemmas.List.Edits.{sets};
ghost use Rattle.slices.specs.First.{lowest};
ghost use Rattle.panel.specs.Format.{run, reading};
ghost use Rattle.given.specs.Given.{from_words, is_step, unknown, steps_in, strange, strange_at, four_at, lent_steps, StepsRead, GivenWrote};

use mesh::{Mesh, Reason, Refusal};
use panel::Held;
use steps::Step;

// ---- steps as words: code, flags, ratio, height

fn is_step(w: [u32; 4]) -> bool
    ensures { result ≡ is_step w }
{
    parts::good_step(w[0], w[1], w[2], w[3])
}

fn from_words(w: [u32; 4]) -> Step
    ensures { result ≡ from_words w }
{
    parts::step_with(w[0], w[1], w[2], w[3])
}

// The first step whose words are no step's.
pub fn unknown_at(steps: &[[u32; 4]]) -> Option<usize>
    ensures { result ≡ lowest (unknown steps.now) (length steps.now) }
{
    slices::lowest(steps.len(), |i| !is_step(steps[i]))
}

// The place of the first unknown step of at most 16, its byte among the steps.
pub fn strange_at(steps: &[[u32; 4]]) -> Option<u32>
    ensures { result ≡ cond (strange steps.now) (Some (strange_at steps.now)) None }
{
    if 16 < steps.len() {
        return None;
    }
    let i = unknown_at(steps)?;
    Some((16 * i) as u32)
}

// How many of n steps are taken.
fn few(n: usize) -> usize
    ensures { result ≡ min 16 n }
{
    n.min(16)
}

// The first 16 steps at most, and a filler in the places after them.
pub fn steps_of(steps: &[[u32; 4]]) -> [Step; 16]
    ensures { result ≡ steps_in steps.now }
{
    let n = few(steps.len());
    let mut list = [Step::Dual; 16];
    for i in 0..n {
        list[i] = from_words(steps[i]);
    }
    list
}

// ---- the panel file

// The four words of the step at a byte.
fn four_at(bytes: &[u8], at: usize) -> [u32; 4]
    requires { at + 16 ≤ length bytes.now }
    ensures { result ≡ four_at bytes.now at }
{
    [
        words::word(bytes, at),
        words::word(bytes, at + 4),
        words::word(bytes, at + 8),
        words::word(bytes, at + 12),
    ]
}

// The steps of a panel file as words: 13 at 3 where they do not fit.
pub fn file_steps(bytes: &[u8], out: &mut [[u32; 4]]) -> Result<Held, Refusal>
    ensures { StepsRead bytes.now (lent_steps (reading bytes.now) (length out.old)) out.old result out.new }
{
    let held = panel::check(bytes)?;
    let many = held.steps as usize;
    if out.len() < many {
        return Err(Reason::Room.at(3));
    }
    panel::put_run(
        4,
        16,
        many,
        out,
        0,
        |at: usize| -> [u32; 4]
            requires { at + 16 ≤ length bytes.now }
            ensures { result ≡ four_at bytes.entry.now at }
        { four_at(bytes, at) },
    );
    Ok(held)
}

// Writes a panel file of the steps and a mesh into lent bytes.
pub fn write(steps: &[[u32; 4]], mesh: Mesh<'_>, out: &mut [u8]) -> Result<u32, Refusal>
    ensures { GivenWrote steps.now mesh.entry.offsets.now mesh.entry.corners.now mesh.entry.coords.now out.old result out.new }
{
    if let Some(at) = strange_at(steps) {
        return Err(Reason::Step.at(at));
    }
    if steps.len() > 16 {
        return writer::write(&[Step::Dual; 17], mesh, out);
    }
    let list = steps_of(steps);
    writer::write(&list[..steps.len()], mesh, out)
}
