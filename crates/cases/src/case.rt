// A case: its header and its lists.

ghost use Rattle.std.specs.Prelude.{IfOk};
ghost use Rattle.cases.specs.Case.{IsOf};

use crate::header::Header;
use crate::input::{read_list, read_words};
use crate::owned::OwnedMesh;
use std::alloc::Global;
use std::io;
use std::io::Read;
use std::num::f32_from_bits_with_nan;

// `refill` keeps the memory of the lists for those of the next case.
#[derive(Drop)]
pub struct Case {
    pub header: Header,
    pub mesh: OwnedMesh,
    // The patterns of the mesh's coordinates.
    pub bits: Vec<u32>,
    pub arities: Vec<u32>,
    pub faces: Vec<u32>,
    // Room for the reading.
    bytes: Vec<u8>,
}

impl Case {
    // A case of zeros, with no entry in its lists.
    pub fn new(alloc: Global) -> Case {
        Case {
            header: Header::from([0; 14]),
            mesh: OwnedMesh {
                offsets: Vec::new(alloc),
                corners: Vec::new(alloc),
                coords: Vec::new(alloc),
            },
            bits: Vec::new(alloc),
            arities: Vec::new(alloc),
            faces: Vec::new(alloc),
            bytes: Vec::new(alloc),
        }
    }

    // The lists that a header tells of.
    pub fn read_lists<R: Read>(input: &mut R, alloc: Global, header: Header) -> io::Result<Case>
        ensures { IfOk result (λ case. IsOf header case) }
    {
        let sizes = header.sizes;
        let offsets = read_words(input, alloc, sizes.offsets)?;
        let corners = read_words(input, alloc, sizes.corners)?;
        let bits = read_words(input, alloc, sizes.coords)?;
        let arities = read_words(input, alloc, header.arities)?;
        let faces = read_words(input, alloc, header.faces)?;
        let coords = bits
            .iter()
            .map(|b| f32_from_bits_with_nan(*b))
            .collect(alloc)?;
        Ok(Case {
            header,
            mesh: OwnedMesh {
                offsets,
                corners,
                coords,
            },
            bits,
            arities,
            faces,
            bytes: Vec::new(alloc),
        })
    }

    // The same in place of those of this case, in their memory.
    pub fn refill<R: Read>(&mut self, input: &mut R, header: Header) -> io::Result<()> {
        let sizes = header.sizes;
        let bytes = &mut self.bytes;
        self.header = header;
        read_list(input, bytes, &mut self.mesh.offsets, sizes.offsets)?;
        read_list(input, bytes, &mut self.mesh.corners, sizes.corners)?;
        read_list(input, bytes, &mut self.bits, sizes.coords)?;
        read_list(input, bytes, &mut self.arities, header.arities)?;
        read_list(input, bytes, &mut self.faces, header.faces)?;
        self.set_coords()
    }

    // The floats of the patterns.
    #[inline(always)]
    fn set_coords(&mut self) -> io::Result<()> {
        let coords = &mut self.mesh.coords;
        coords.resize(self.bits.len(), 0.0)?;
        for (x, b) in coords.iter_mut().zip(&self.bits) {
            *x = f32_from_bits_with_nan(*b);
        }
        Ok(())
    }
}
