// Which faces an operator picks: by arity, by number, by shape.

#![tactic(auto)]

ghost use Rattle.std.specs.Prelude.{◌≡◌, ◌<◌, ◌≤◌, length};
ghost use Rattle.slices.specs.First.{count};
ghost use Rattle.faces.specs.Face.{InReach};
ghost use Rattle.mesh.specs.Mesh.{faces, arity, run};
ghost use Rattle.mesh.specs.Edges.{Faced};
ghost use Rattle.picks.specs.Picks.{picked};
ghost use Rattle.picks.specs.Ready.{Ready};

// Which of the three masks are given: a list of arities, a list of face numbers, regular faces only.
#[derive(Clone, Copy)]
pub struct Mask {
    pub arities: bool,
    pub numbers: bool,
    pub regular: bool,
}

// The mask with its two lists: of arities and of face numbers.
#[derive(Clone, Copy)]
pub struct Masks<'a> {
    pub mask: Mask,
    pub arities: &'a [u32],
    pub numbers: &'a [u32],
}

// A mesh that the table passes from 1 to 7, but for 3, which is an operator's own.
#[derive(Clone, Copy)]
pub struct Ready<'a> {
    pub offsets: &'a [u32],
    pub corners: &'a [u32],
    pub coords: &'a [f32],
    ghost ready: { Ready offsets.now corners.now coords.now },
}

impl<'a> Ready<'a> {
    // The run of face `f`.
    #[tactic(auto, using(crate::specs::Runs::run_within, crate::specs::Runs::run_long, crate::specs::Runs::run_reach))]
    pub fn run(self, f: usize) -> faces::Run<'a>
        requires { f < faces self.offsets.now }
        ensures coords { result.coords.now ≡ self.entry.coords.now }
        ensures face { result.face.now ≡ run self.entry.offsets.now self.entry.corners.now f }
        ensures long { length result.face.now ≡ arity self.entry.offsets.now f }
        ensures some { 0 < length result.face.now }
    {
        let a = self.offsets[f] as usize;
        let b = self.offsets[f + 1] as usize;
        faces::Run {
            coords: self.coords,
            face: &self.corners[a..b],
        }
    }
}

// Whether the mask, with its two lists, picks face `f`: each that is given allows the face.
#[tactic(auto, using(crate::specs::Laws::picked_as, crate::specs::Runs::run_within, crate::specs::Runs::run_long, crate::specs::Runs::run_reach))]
pub fn picks(masks: Masks<'_>, offsets: &[u32], corners: &[u32], coords: &[f32], f: usize) -> bool
    requires faced { Faced offsets.now corners.now }
    requires in_reach { InReach coords.now corners.now }
    requires f_bound { f < faces offsets.now }
    ensures { result ≡ picked masks.entry.mask masks.entry.arities.now masks.entry.numbers.now offsets.now corners.now coords.now f }
{
    let a = offsets[f] as usize;
    let b = offsets[f + 1] as usize;
    let run = faces::Run {
        coords,
        face: &corners[a..b],
    };
    (!masks.mask.arities || masks.arities.contains(&(run.face.len() as u32)))
        && (!masks.mask.numbers || masks.numbers.contains(&(f as u32)))
        && (!masks.mask.regular || run.is_regular())
}

impl Masks<'_> {
    // Whether it picks face `f` of a mesh that the table passes so far.
    pub fn picks(self, mesh: Ready<'_>, f: usize) -> bool
        requires { f < faces mesh.offsets.now }
        ensures { result ≡ picked self.entry.mask self.entry.arities.now self.entry.numbers.now mesh.entry.offsets.now mesh.entry.corners.now mesh.entry.coords.now f }
    {
        picks(self, mesh.offsets, mesh.corners, mesh.coords, f)
    }

    // How many faces below `stop` it picks.
    pub fn picks_below(self, mesh: Ready<'_>, stop: usize) -> usize
        requires { stop ≤ faces mesh.offsets.now }
        ensures { result ≡ count (picked self.entry.mask self.entry.arities.now self.entry.numbers.now mesh.entry.offsets.now mesh.entry.corners.now mesh.entry.coords.now) stop }
    {
        (0..stop).filter(|f| self.picks(mesh, *f)).count()
    }
}
