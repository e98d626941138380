// Where faces are written: the two lists of the output, and the place of the next face.

ghost use Rattle.std.specs.Prelude.{◌≡◌, ℕ, [], ◌∷◌, ◌+◌, ◌<◌, length};
ghost use Rattle.slices.specs.Lists.{each};
ghost use Rattle.rule.specs.Output.{Put, PutEnd, SpaceIn};

use crate::At;

// The offsets and corners that faces are written to, and the place of the next face.
#[derive(Drop)]
pub struct Output<'a> {
    pub offsets: &'a mut [u32],
    pub corners: &'a mut [u32],
    pub at: At,
}

impl Output<'_> {
    // The end of a face of n corners.
    pub fn put_end(&mut self, n: usize)
        requires { (self.old.at.offs < length self.old.offsets.now) × (self.old.at.cors + n < 4294967296) }
        ensures { PutEnd self.old n self.new }
    {
        let k = self.at.cors + n;
        self.offsets[self.at.offs] = k as u32;
        self.at = At {
            offs: self.at.offs + 1,
            cors: k,
        };
    }

    // A face of n corners, of the vertex that `vertex` gives at each place.
    pub fn put_ring<F: Fn(usize) -> u32>(&mut self, n: usize, vertex: F)
        requires vertices { (j : ℕ) → j < n → F.pre vertex j }
        requires space { SpaceIn self.old n }
        ensures { (g : ℕ → ℕ) → ((j v : ℕ) → j < n → F.post vertex j v → v ≡ g j) → Put self.old (each (λ j. g j ∷ []) n ∷ []) self.new }
    {
        let k = self.at.cors;
        for j in 0..n {
            self.corners[k + j] = vertex(j);
        }
        self.put_end(n)
    }
}
