// Words of four bytes, the lowest first, in a run of bytes: reading and writing them; the floats that some of them stand for.

#![tactic(auto)]

ghost use Rattle.std.specs.Prelude.{◌≡◌, ◌+◌, ◌<◌, ◌≤◌, length};
ghost use Rattle.std.proofs.lemmas.List.Edits.{sets};
ghost use Rattle.std.specs.Float.Ieee.{of_bits, to_bits};
ghost use Rattle.std.specs.Float.{binary32};
ghost use Rattle.words.specs.Words.{whole_at, word_at, bytes_of};

use std::num::{f32_from_bits_with_nan, f32_to_bits_with_nan};

// Whether `size` bytes stand from `at` on.
#[tactic(auto, unfolding(crate::specs::Words::whole_at))]
pub fn whole(bytes: &[u8], at: usize, size: usize) -> bool
    ensures { result ≡ whole_at bytes.now at size }
{
    at <= bytes.len() && size <= bytes.len() - at
}

// The word at a byte.
#[tactic(auto, unfolding(crate::specs::Words::word_at))]
pub fn word(bytes: &[u8], at: usize) -> u32
    requires { at + 4 ≤ length bytes.now }
    ensures { result ≡ word_at bytes.now at }
{
    u32::from_le_bytes([bytes[at], bytes[at + 1], bytes[at + 2], bytes[at + 3]])
}

// The float of a bit pattern; each pattern of a NaN gives the one NaN.
pub fn float_of(bits: u32) -> f32
    ensures { result ≡ of_bits binary32 bits }
{
    f32_from_bits_with_nan(bits)
}

// The bit pattern of a float; that of a NaN is 0x7FC00000.
pub fn bits_of(x: f32) -> u32
    ensures { result ≡ to_bits binary32 x }
{
    f32_to_bits_with_nan(x)
}

// A word written at a byte.
pub fn put_word(out: &mut [u8], at: usize, w: u32)
    requires { at + 4 ≤ length out.old }
    ensures { out.new ≡ sets out.old at (bytes_of w) }
{
    out[at..at + 4].copy_from_slice(&w.to_le_bytes());
}
