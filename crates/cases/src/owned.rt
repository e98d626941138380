// Meshes that own their lists: that of a case, and those that are lent to a call.

ghost use Rattle.std.specs.Prelude.{◌≡◌, ℕ, [], ◌∷◌, ◌+◌, ◌*◌, ◌%◌, ◌^◌, ◌<◌, List, Float, length, slice_index, slice_index_or, from_bits};
ghost use Rattle.std.specs.Float.{binary32};

use crate::header::Sizes;
use crate::text::Fields;
use mesh::{Mesh, MeshMut};
use std::alloc::{AllocError, Global};
use std::fmt;
use std::num::{f32_from_bits_with_nan, f32_to_bits_with_nan};

#[derive(Drop)]
pub struct OwnedMesh {
    pub offsets: Vec<u32>,
    pub corners: Vec<u32>,
    pub coords: Vec<f32>,
}

impl OwnedMesh {
    // What is lent to a call: numbers from `fill` on, 0 after the largest, and the floats of such patterns.
    pub fn lent(alloc: Global, sizes: Sizes, fill: u32) -> Result<OwnedMesh, AllocError> {
        Ok(OwnedMesh {
            offsets: numbers(alloc, sizes.offsets, fill)?,
            corners: numbers(alloc, sizes.corners, fill)?,
            coords: floats(alloc, sizes.coords, fill)?,
        })
    }

    // The mesh, for a call that reads it.
    pub fn as_mesh(&self) -> Mesh<'_> {
        Mesh {
            offsets: &self.offsets,
            corners: &self.corners,
            coords: &self.coords,
        }
    }

    // Its lists as room, for a call that writes them.
    pub fn as_room(&mut self) -> MeshMut<'_> {
        MeshMut {
            offsets: &mut self.offsets,
            corners: &mut self.corners,
            coords: &mut self.coords,
        }
    }

    // Whether every element reads zero.
    pub fn is_zero(&self) -> bool {
        self.offsets.iter().all(|n| *n == 0)
            && self.corners.iter().all(|n| *n == 0)
            && self.coords.iter().all(|x| f32_to_bits_with_nan(*x) == 0)
    }
}

// Fills a list with the numbers from `fill` on, 0 after the largest.
pub fn fill_numbers(list: &mut [u32], fill: u32)
    ensures len { length list.new ≡ length list.old }
    ensures each { (k : ℕ) → k < length list.old → slice_index list.new k ≡ (fill + k) % 2 ^ 32 }
{
    let mut next = fill;
    for n in list.iter_mut() {
        *n = next;
        next = next.wrapping_add(1);
    }
}

// Fills a list with the floats of these patterns.
pub fn fill_floats(list: &mut [f32], fill: u32)
    ensures len { length list.new ≡ length list.old }
    ensures each { (d : Float) (k : ℕ) → k < length list.old → slice_index_or list.new k d ≡ from_bits binary32 ((fill + k) % 2 ^ 32) }
{
    let mut next = fill;
    for x in list.iter_mut() {
        *x = f32_from_bits_with_nan(next);
        next = next.wrapping_add(1);
    }
}

// Fills a list with pairs of these numbers.
pub fn fill_pairs(list: &mut [[u32; 2]], fill: u32)
    ensures len { length list.new ≡ length list.old }
    ensures each { (d : List ℕ) (k : ℕ) → k < length list.old → slice_index_or list.new k d ≡ (fill + 2 * k) % 2 ^ 32 ∷ (fill + 2 * k + 1) % 2 ^ 32 ∷ [] }
{
    let mut next = fill;
    for pair in list.iter_mut() {
        *pair = [next, next.wrapping_add(1)];
        next = next.wrapping_add(2);
    }
}

// So many numbers from `fill` on.
pub fn numbers(alloc: Global, n: u32, fill: u32) -> Result<Vec<u32>, AllocError> {
    let mut list = vec![in alloc; 0; n as usize]?;
    fill_numbers(&mut list, fill);
    Ok(list)
}

// The floats of so many patterns from `fill` on.
fn floats(alloc: Global, n: u32, fill: u32) -> Result<Vec<f32>, AllocError> {
    let mut list = vec![in alloc; 0.0; n as usize]?;
    fill_floats(&mut list, fill);
    Ok(list)
}

// So many pairs of numbers from `fill` on.
pub fn pairs(alloc: Global, n: u32, fill: u32) -> Result<Vec<[u32; 2]>, AllocError> {
    let mut list = vec![in alloc; [0; 2]; n as usize]?;
    fill_pairs(&mut list, fill);
    Ok(list)
}

// Each list after its letter.
impl fmt::Display for OwnedMesh {
    fn fmt<W: fmt::Write>(&self, f: &mut fmt::Formatter<W>) -> fmt::Result {
        write!(f, " o{}", Fields(&self.offsets))?;
        write!(f, " c{}", Fields(&self.corners))?;
        write!(f, " x{}", Fields(&self.coords))
    }
}
