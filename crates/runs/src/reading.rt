// The steps of a case: four words each, the code, the flags, the ratio and the height.

ghost use Rattle.std.specs.Prelude.{◌≡◌, ◌≢◌, IfOk, IfErr, vec_len};

use cases::fault::Fault;
use cases::flags::Flags;
use cases::input::{read_array, read_words};
use cases::operator::Operator;
use std::alloc::{AllocError, Global};
use std::io::Read;
use steps::Step;

// The step that these words tell; a number that the operator does not take is left alone.
fn step_of(words: [u32; 4]) -> Result<Step, Fault>
    ensures { IfErr result (λ why. why ≢ Fault.Ended) }
{
    let [code, flags, ratio, height] = words;
    let flags = Flags::from(flags);
    let ratio = flags.ratio_of(ratio);
    let height = flags.height_of(height);
    Ok(match Operator::try_from(code)? {
        Operator::Ambo => Step::Ambo(ratio),
        Operator::Chamfer => Step::Chamfer(ratio),
        Operator::Dual => Step::Dual,
        Operator::Gyro => Step::Gyro(ratio, height),
        Operator::Kis => Step::Kis(height),
        Operator::Propellor => Step::Propellor(ratio),
        Operator::Quinto => Step::Quinto(height),
        Operator::Reflect => Step::Reflect,
        Operator::Reverse => Step::Reverse,
        Operator::Whirl => Step::Whirl(ratio, height),
        Operator::Triangulate => Step::Triangulate,
    })
}

// The next n steps of the input.
pub fn read_steps<R: Read>(input: &mut R, alloc: Global, n: u32) -> Result<Vec<Step>, Fault>
    ensures count { IfOk result (λ steps. vec_len steps ≡ n) }
    ensures why { IfErr result (λ why. why ≢ Fault.Ended) }
{
    let mut steps = Vec::new(alloc);
    for _i in 0..n {
        let step = step_of(read_array(input)?)?;
        steps.push(step).map_err(AllocError::from)?;
    }
    Ok(steps)
}

// The same, fewer than 2^30, whose words are all read before any is looked at.
pub fn read_all_steps<R: Read>(input: &mut R, alloc: Global, n: u32) -> Result<Vec<Step>, Fault>
    ensures { IfOk result (λ steps. vec_len steps ≡ n) }
{
    let count = n.checked_mul(4).ok_or(Fault::BadCase)?;
    let words = read_words(input, alloc, count)?;
    let mut steps = Vec::new(alloc);
    for i in 0..n as usize {
        let at = 4 * i;
        let step = step_of([words[at], words[at + 1], words[at + 2], words[at + 3]])?;
        steps.push(step).map_err(AllocError::from)?;
    }
    Ok(steps)
}
