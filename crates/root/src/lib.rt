// The square root of an f32 by whole numbers: on bit patterns and on floats.

#![tactic(auto)]

ghost use Rattle.std.specs.Prelude.{◌≡◌, ◌+◌, ◌*◌, ◌<◌, ◌≤◌, ◌^◌};
ghost use Rattle.root.specs.Sqrt.{sqrt_n, IsRoot, root_bits, root32, root_of};

use std::num::{f32_from_bits_with_nan, f32_to_bits_with_nan};

// A step of the exponent in a pattern, and so the least pattern of a normal value.
const STEP: u32 = 0x80_0000;

const INFINITY: u32 = 0x7f80_0000;

const MINUS_ZERO: u32 = 0x8000_0000;

// The pattern of the one NaN that a root can be.
const NAN: u32 = 0x7fc0_0000;

// The largest s with s * s <= n, digit by digit. The steps are counted and no step chooses another way, which a search between two
// bounds would: a quarter of the time and more.
fn isqrt(n: u64) -> u64
    ensures value { result ≡ sqrt_n n }
    ensures upper_bound { result < 2 ^ 26 }
{
    let mut s: u64 = 0;
    let mut p: u64 = 0x400_0000;
    for _k in 0..26usize {
        p /= 2;
        let t = s + p;
        if t * t <= n {
            s = t;
        }
    }
    s
}

// The root of the value m * 2^t * 2^-173, for a significand m of 24 digits: a root of 25 digits,
// rounded to 24. It is never a tie.
fn root_of(m: u32, t: u32) -> u32
    requires { (2 ^ 23 ≤ m) × (m < 2 ^ 24) × (t ≤ 278) }
    ensures value { result ≡ root_of m t }
    ensures upper_bound { result < 0x7f80_0000 }
{
    let n = u64::from(m) << (25 + t % 2);
    let s = isqrt(n);
    (t / 2 + 51) * STEP + ((s + 1) / 2) as u32
}

// The root of a bit pattern.
#[tactic(auto, using(crate::proofs::Laws::patterns))]
pub fn root_bits(b: u32) -> u32
    ensures value { result ≡ root_bits b }
    ensures root { IsRoot b result }
{
    match b {
        0 | MINUS_ZERO | INFINITY => b,
        1..STEP => {
            let z = b.leading_zeros();
            root_of(b << (z - 8), 32 - z)
        }
        STEP..INFINITY => root_of(STEP + b % STEP, b / STEP + 23),
        _ => NAN,
    }
}

// The square root of a float.
pub fn root(x: f32) -> f32
    ensures { result ≡ root32 x }
{
    f32_from_bits_with_nan(root_bits(f32_to_bits_with_nan(x)))
}
