// Words of the input: four bytes each, the lowest first.

ghost use Rattle.std.specs.Prelude.{◌≡◌, ◌*◌, ◌<◌, OnOk, IfOk, IfErr, length, vec_len};
ghost use Rattle.std.specs.Io.KnownBytes.{Consumes, IsAtEnd};
ghost use Rattle.cases.specs.Input.{TakesWords};

use crate::fault::Fault;
use byteorder::{ByteOrder, LittleEndian, ReadBytesExt};
use std::alloc::Global;
use std::io;
use std::io::Read;

// Reads as many bytes as there is room for; `Ended` where the input has none.
fn read_front<R: Read>(input: &mut R, bytes: &mut [u8]) -> Result<(), Fault>
    ensures bytes { OnOk result (Consumes (R.remaining input.old) (R.remaining input.new) bytes.new) }
    ensures ended { IfErr result (λ why. why ≡ Fault.Ended → 0 < length bytes.old → IsAtEnd (R.remaining input.old)) }
{
    let some = input.read(bytes)?;
    if some == 0 {
        return Err(Fault::Ended);
    }
    if some < bytes.len() {
        input.read_exact(&mut bytes[some..])?;
    }
    Ok(())
}

// The next words of the input, as many as the array has.
pub fn read_array<const N: usize, R: Read>(input: &mut R) -> io::Result<[u32; N]>
    ensures { IfOk result (λ words. TakesWords (R.remaining input.old) (R.remaining input.new) words) }
{
    let mut words = [0u32; N];
    input.read_u32_into::<LittleEndian>(&mut words)?;
    Ok(words)
}

// The same; `Ended` where there is not a byte of them.
pub fn next_array<const N: usize, R: Read>(input: &mut R) -> Result<[u32; N], Fault>
    ensures bytes { IfOk result (λ words. TakesWords (R.remaining input.old) (R.remaining input.new) words) }
    ensures ended { IfErr result (λ why. why ≡ Fault.Ended → 0 < N → IsAtEnd (R.remaining input.old)) }
{
    let mut parts = [[0u8; 4]; N];
    let bytes = parts.as_flattened_mut();
    read_front(input, bytes)?;
    let mut words = [0u32; N];
    LittleEndian::read_u32_into(bytes, &mut words);
    Ok(words)
}

// Reads the next words of the input in place of those of a list, as many as `bytes` has room for.
fn read_some<R: Read>(input: &mut R, bytes: &mut [u8], words: &mut [u32]) -> io::Result<()>
    requires { length bytes.old ≡ 4 * length words.old }
    ensures { OnOk result (TakesWords (R.remaining input.old) (R.remaining input.new) words.new) }
{
    input.read_exact(bytes)?;
    LittleEndian::read_u32_into(bytes, words);
    Ok(())
}

// Reads the next n words of the input in place of those of a list; `bytes` is room for the reading.
#[inline(always)]
pub fn read_list<R: Read>(
    input: &mut R,
    bytes: &mut Vec<u8>,
    words: &mut Vec<u32>,
    n: u32,
) -> io::Result<()>
    ensures count { OnOk result (vec_len words.new ≡ n) }
    ensures bytes { OnOk result (TakesWords (R.remaining input.old) (R.remaining input.new) words.new.items) }
{
    let n = n as usize;
    if n == 0 {
        words.clear();
        return Ok(());
    }
    bytes.resize(4 * n, 0)?;
    words.resize(n, 0)?;
    read_some(input, bytes, words)
}

// The next n words of the input.
pub fn read_words<R: Read>(input: &mut R, alloc: Global, n: u32) -> io::Result<Vec<u32>>
    ensures count { IfOk result (λ words. vec_len words ≡ n) }
    ensures bytes { IfOk result (λ words. TakesWords (R.remaining input.old) (R.remaining input.new) words.items) }
{
    let mut words = Vec::new(alloc);
    read_list(input, &mut Vec::new(alloc), &mut words, n)?;
    Ok(words)
}
