// The header of a case: its 14 words, and the limits of the counts in it.

ghost use Rattle.std.specs.Prelude.{◌≡◌, ◌≢◌, ◌↔◌, IsTrue, IfOk, IfErr};
ghost use Rattle.cases.specs.Header.{Fits, Within};

use crate::fault::Fault;
use crate::flags::Flags;
use crate::input::{next_array, read_array};
use std::io::Read;

// The most numbers of a list, and the most coordinates.
const MOST_NUMBERS: u32 = 65_536;

const MOST_COORDS: u32 = 196_608;

// How many offsets, corners and coordinates a mesh has.
#[derive(Clone, Copy)]
pub struct Sizes {
    pub offsets: u32,
    pub corners: u32,
    pub coords: u32,
}

impl Sizes {
    // Whether a list of each of these sizes fits the program's memory.
    pub fn fit(&self) -> bool
        ensures { IsTrue result ↔ Fits self.now }
    {
        self.offsets <= MOST_NUMBERS && self.corners <= MOST_NUMBERS && self.coords <= MOST_COORDS
    }
}

#[derive(Clone, Copy)]
pub struct Header {
    pub code: u32,
    pub flags: Flags,
    pub ratio: Option<f32>,
    pub height: Option<f32>,
    pub sizes: Sizes,
    pub arities: u32,
    pub faces: u32,
    pub rooms: Sizes,
    pub fill: u32,
}

impl Header {
    // Whether each count is within its limit.
    fn is_within(&self) -> bool
        ensures { IsTrue result ↔ Within self.now }
    {
        self.sizes.fit()
            && self.arities <= MOST_NUMBERS
            && self.faces <= MOST_NUMBERS
            && self.rooms.fit()
    }

    // The next header of the input.
    pub fn read<R: Read>(input: &mut R) -> Result<Header, Fault>
        ensures within { IfOk result (λ h. Within h) }
        ensures why { IfErr result (λ why. why ≢ Fault.Ended) }
    {
        Header::checked(read_array(input)?)
    }

    // The same; `Ended` where the input has none.
    pub fn next<R: Read>(input: &mut R) -> Result<Header, Fault>
        ensures { IfOk result (λ h. Within h) }
    {
        Header::checked(next_array(input)?)
    }

    // The header of these words, where each count is within its limit.
    pub fn checked(words: [u32; 14]) -> Result<Header, Fault>
        ensures within { IfOk result (λ h. Within h) }
        ensures why { IfErr result (λ why. why ≡ Fault.BadCase) }
    {
        let header = Header::from(words);
        if header.is_within() {
            Ok(header)
        } else {
            Err(Fault::BadCase)
        }
    }
}

impl From<[u32; 14]> for Header {
    fn from(words: [u32; 14]) -> Header {
        let [
            code,
            flags,
            ratio,
            height,
            offsets,
            corners,
            coords,
            arities,
            faces,
            room_o,
            room_c,
            room_x,
            fill,
            _,
        ] = words;
        let flags = Flags::from(flags);
        Header {
            code,
            flags,
            ratio: flags.ratio_of(ratio),
            height: flags.height_of(height),
            sizes: Sizes {
                offsets,
                corners,
                coords,
            },
            arities,
            faces,
            rooms: Sizes {
                offsets: room_o,
                corners: room_c,
                coords: room_x,
            },
            fill,
        }
    }
}
