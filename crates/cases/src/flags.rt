// The flags of a header or a step: what is given, and how to choose.

use picks::Mask;
use std::num::f32_from_bits_with_nan;

#[derive(Clone, Copy)]
pub struct Flags {
    pub ratio: bool,
    pub height: bool,
    pub arities: bool,
    pub faces: bool,
    pub regular: bool,
    pub longer: bool,
}

impl From<u32> for Flags {
    fn from(word: u32) -> Flags {
        Flags {
            ratio: word & 1 != 0,
            height: word & 2 != 0,
            arities: word & 4 != 0,
            faces: word & 8 != 0,
            regular: word & 16 != 0,
            longer: word & 32 != 0,
        }
    }
}

impl Flags {
    // The masks of kis.
    pub fn mask(self) -> Mask {
        Mask {
            arities: self.arities,
            numbers: self.faces,
            regular: self.regular,
        }
    }

    // The ratio of these bits, where it is given.
    pub fn ratio_of(self, bits: u32) -> Option<f32> {
        number_of(self.ratio, bits)
    }

    // The height of these bits, where it is given.
    pub fn height_of(self, bits: u32) -> Option<f32> {
        number_of(self.height, bits)
    }
}

// The number of these bits, where it is given.
fn number_of(given: bool, bits: u32) -> Option<f32> {
    given.then_some(f32_from_bits_with_nan(bits))
}
