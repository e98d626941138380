// The meshes that are lent to a list or a recipe: two to work in, and one for the result.

use crate::more::More;
use cases::header::Header;
use cases::owned::OwnedMesh;
use std::alloc::{AllocError, Global};
use std::fmt;

#[derive(Drop)]
pub struct Work {
    pub a: OwnedMesh,
    pub b: OwnedMesh,
    pub x: OwnedMesh,
}

impl Work {
    pub fn lent(alloc: Global, header: &Header, more: &More) -> Result<Work, AllocError> {
        Ok(Work {
            a: OwnedMesh::lent(alloc, more.a, header.fill)?,
            b: OwnedMesh::lent(alloc, more.b, header.fill)?,
            x: OwnedMesh::lent(alloc, header.rooms, header.fill)?,
        })
    }
}

// Whether each mesh to work in reads zero, 1 or 0, after the letter w; then the result.
impl fmt::Display for Work {
    fn fmt<W: fmt::Write>(&self, f: &mut fmt::Formatter<W>) -> fmt::Result {
        let a = u8::from(self.a.is_zero());
        let b = u8::from(self.b.is_zero());
        let x = &self.x;
        write!(f, " w {a} {b}{x}")
    }
}
