// The parts of a panel file, checked one by one: counts, steps, items of one size, faces; the step that four words stand for.

#![tactic(auto)]

ghost use Rattle.std.specs.Prelude.{◌≡◌, ℕ, ◌+◌, ◌-◌, ◌*◌, ◌<◌, ◌≤◌};
ghost use Rattle.parts.specs.StepWords.{takes_ratio, takes_height, good_number, good_step, number_of, step_of, step_with};
ghost use Rattle.parts.specs.Part.{Part};
ghost use Rattle.parts.specs.Parts.{count_at, step_says, whole_says, items, section, faces};

use mesh::{Reason, Refusal};
use steps::Step;

#[tactic(auto, unfolding(crate::specs::StepWords::takes_ratio))]
fn takes_ratio(code: u32) -> bool
    ensures { result ≡ takes_ratio code }
{
    matches!(code, 1 | 2 | 4 | 6 | 10)
}

#[tactic(auto, unfolding(crate::specs::StepWords::takes_height))]
fn takes_height(code: u32) -> bool
    ensures { result ≡ takes_height code }
{
    matches!(code, 4 | 5 | 7 | 10)
}

// A number is present only where its operator takes one; the bits of an absent one are 0.
fn good_number(takes: bool, present: bool, bits: u32) -> bool
    ensures { result ≡ good_number takes present bits }
{
    if present { takes } else { bits == 0 }
}

// A known code, no other flags than 1 and 2, and two good numbers.
#[tactic(auto, unfolding(crate::specs::StepWords::good_step))]
pub fn good_step(code: u32, flags: u32, ratio: u32, height: u32) -> bool
    ensures { result ≡ good_step code flags ratio height }
{
    1 <= code
        && code <= 11
        && flags <= 3
        && good_number(takes_ratio(code), flags % 2 == 1, ratio)
        && good_number(takes_height(code), flags / 2 % 2 == 1, height)
}

fn number_of(present: bool, bits: u32) -> Option<f32>
    ensures { result ≡ number_of present bits }
{
    if present {
        Some(words::float_of(bits))
    } else {
        None
    }
}

fn step_of(code: u32, ratio: Option<f32>, height: Option<f32>) -> Step
    ensures { result ≡ step_of code ratio height }
{
    match code {
        1 => Step::Ambo(ratio),
        2 => Step::Chamfer(ratio),
        3 => Step::Dual,
        4 => Step::Gyro(ratio, height),
        5 => Step::Kis(height),
        6 => Step::Propellor(ratio),
        7 => Step::Quinto(height),
        8 => Step::Reflect,
        9 => Step::Reverse,
        10 => Step::Whirl(ratio, height),
        _ => Step::Triangulate,
    }
}

// The step that four words stand for.
pub fn step_with(code: u32, flags: u32, ratio: u32, height: u32) -> Step
    ensures { result ≡ step_with code flags ratio height }
{
    let t = number_of(flags % 2 == 1, ratio);
    let h = number_of(flags / 2 % 2 == 1, height);
    step_of(code, t, h)
}

// A count or an arity: 15 where it is not whole, 16 where it is over `most`.
#[tactic(auto, using(words::specs::Words::whole_in), unfolding(crate::specs::Parts::count_at))]
pub fn count_at(bytes: &[u8], at: usize, most: u32) -> Result<u32, Refusal>
    requires { at < 4294967296 }
    ensures { result ≡ count_at bytes.now at most }
{
    if !words::whole(bytes, at, 4) {
        return Err(Reason::Cut.at(at as u32));
    }
    let n = words::word(bytes, at);
    if n > most {
        return Err(Reason::Count.at(at as u32));
    }
    Ok(n)
}

// A step: 15 where it is not whole, 17 where its words are no step's.
#[tactic(auto, using(words::specs::Words::whole_in), unfolding(crate::specs::Parts::step_says))]
fn step_says(bytes: &[u8], at: usize) -> Result<u32, Refusal>
    requires { at < 4294967296 }
    ensures { result ≡ step_says bytes.now at }
{
    if !words::whole(bytes, at, 16) {
        return Err(Reason::Cut.at(at as u32));
    }
    if !good_step(
        words::word(bytes, at),
        words::word(bytes, at + 4),
        words::word(bytes, at + 8),
        words::word(bytes, at + 12),
    ) {
        return Err(Reason::Step.at(at as u32));
    }
    Ok(0)
}

// A position or a corner: 15 where it is not whole.
#[tactic(auto, unfolding(crate::specs::Parts::whole_says))]
fn whole_says(bytes: &[u8], size: usize, at: usize) -> Result<u32, Refusal>
    requires { at < 4294967296 }
    ensures { result ≡ whole_says bytes.now size at }
{
    if !words::whole(bytes, at, size) {
        return Err(Reason::Cut.at(at as u32));
    }
    Ok(0)
}

// n items of one size from a byte on, each judged by `says`.
fn check_items<F: Fn(usize) -> Result<u32, Refusal>>(
    size: usize,
    from: usize,
    n: usize,
    says: F,
) -> Result<u32, Refusal>
    requires bounds { (size ≤ 16) × (from ≤ 20000) × (n ≤ 1200) }
    requires callable { (at : ℕ) → at < 4294967296 → F.pre says at }
    ensures { (say : ℕ → Part) → ((at : ℕ) (r : Part) → at < 4294967296 → F.post says at r → r ≡ say at) → result ≡ items say size from n }
{
    let mut at = from;
    for _ in 0..n {
        says(at)?;
        at += size;
    }
    Ok(0)
}

// The count of steps and the steps.
pub fn steps_part(bytes: &[u8]) -> Result<u32, Refusal>
    ensures { result ≡ section bytes.now 0 16 16 (step_says bytes.now) }
{
    let n = count_at(bytes, 0, 16)?;
    check_items(16, 4, n as usize, |at| step_says(bytes, at))?;
    Ok(n)
}

// A count and its items of one size: the positions, or a face.
pub fn items_part(bytes: &[u8], at: usize, most: u32, size: usize) -> Result<u32, Refusal>
    requires { (at ≤ 19996) × (most ≤ 1200) × (size ≤ 16) }
    ensures { result ≡ section bytes.now at most size (whole_says bytes.now size) }
{
    let n = count_at(bytes, at, most)?;
    check_items(
        size,
        at + 4,
        n as usize,
        |place| whole_says(bytes, size, place),
    )?;
    Ok(n)
}

// n faces from a byte on: how many corners they have.
pub fn check_faces(bytes: &[u8], from: usize, n: usize) -> Result<u32, Refusal>
    requires { (from ≤ 6000) × (n ≤ 400) }
    ensures { result ≡ faces bytes.now from 0 n }
{
    let mut at = from;
    let mut sum: u32 = 0;
    for _ in 0..n {
        let a = items_part(bytes, at, 1200 - sum, 4)?;
        at += 4 + 4 * a as usize;
        sum += a;
    }
    Ok(sum)
}
