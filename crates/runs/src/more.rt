// What the header of these cases has beside that of replay's: ten more words.

ghost use Rattle.std.specs.Prelude.{◌≡◌, ◌≢◌, ◌↔◌, IsTrue, IfOk, IfErr};
ghost use Rattle.cases.specs.Header.{Within};
ghost use Rattle.runs.specs.More.{Fits};

use cases::fault::Fault;
use cases::header::{Header, Sizes};
use cases::input::{next_array, read_array};
use std::io::Read;

// The most rows of a ledger, steps of a recipe and bytes of a file.
const MOST_ROWS: u32 = 64;

const MOST_STEPS: u32 = 32;

const MOST_BYTES: u32 = 16_384;

// The sizes of both work meshes, the rows of the ledger, the steps, and the bytes of the file.
#[derive(Clone, Copy)]
pub struct More {
    pub a: Sizes,
    pub b: Sizes,
    pub rows: u32,
    pub steps: u32,
    pub bytes: u32,
}

impl More {
    // Whether each of these words is within its limit.
    fn fits(&self) -> bool
        ensures { IsTrue result ↔ Fits self.now }
    {
        self.a.fit()
            && self.b.fit()
            && self.rows <= MOST_ROWS
            && self.steps <= MOST_STEPS
            && self.bytes <= MOST_BYTES
    }

    // These words, the next ones of the input.
    pub fn read<R: Read>(input: &mut R) -> Result<More, Fault>
        ensures fits { IfOk result (λ m. Fits m) }
        ensures why { IfErr result (λ why. why ≢ Fault.Ended) }
    {
        More::checked(read_array(input)?)
    }

    // What these words say, where each is within its limit.
    pub fn checked(words: [u32; 10]) -> Result<More, Fault>
        ensures fits { IfOk result (λ m. Fits m) }
        ensures why { IfErr result (λ why. why ≡ Fault.BadCase) }
    {
        let more = More::from(words);
        if more.fits() {
            Ok(more)
        } else {
            Err(Fault::BadCase)
        }
    }
}

// The next header of the input, with these words; `Ended` where the input has none.
pub fn read_header<R: Read>(input: &mut R) -> Result<(Header, More), Fault>
    ensures header { IfOk result (λ r. Within r.0) }
    ensures more { IfOk result (λ r. Fits r.1) }
{
    let words: [u32; 24] = next_array(input)?;
    let mut first = [0u32; 14];
    first.copy_from_slice(&words[..14]);
    let mut rest = [0u32; 10];
    rest.copy_from_slice(&words[14..]);
    Ok((Header::checked(first)?, More::checked(rest)?))
}

impl From<[u32; 10]> for More {
    fn from(words: [u32; 10]) -> More {
        let [ao, ac, ap, bo, bc, bp, rows, steps, bytes, _] = words;
        More {
            a: Sizes {
                offsets: ao,
                corners: ac,
                coords: ap,
            },
            b: Sizes {
                offsets: bo,
                corners: bc,
                coords: bp,
            },
            rows,
            steps,
            bytes,
        }
    }
}
