// A step: an operator carrying just the numbers that it takes. Its code, and the call of it.

#![tactic(auto)]

ghost use Rattle.std.specs.Prelude.{◌≡◌};
ghost use Rattle.mesh.specs.Lent.{of_mesh};
ghost use Rattle.engine.specs.Result.{Fills};
ghost use Rattle.steps.specs.Steps.{code_of, step_outcome};

use engine::{Counts, Stop};
use mesh::{Mesh, MeshMut};
use picks::Mask;

#[derive(Clone, Copy)]
pub enum Step {
    Ambo(Option<f32>),
    Chamfer(Option<f32>),
    Dual,
    Gyro(Option<f32>, Option<f32>),
    Kis(Option<f32>),
    Propellor(Option<f32>),
    Quinto(Option<f32>),
    Reflect,
    Reverse,
    Whirl(Option<f32>, Option<f32>),
    Triangulate,
}

pub fn code(s: Step) -> u32
    ensures { result ≡ code_of s }
{
    match s {
        Step::Ambo(_) => 1,
        Step::Chamfer(_) => 2,
        Step::Dual => 3,
        Step::Gyro(_, _) => 4,
        Step::Kis(_) => 5,
        Step::Propellor(_) => 6,
        Step::Quinto(_) => 7,
        Step::Reflect => 8,
        Step::Reverse => 9,
        Step::Whirl(_, _) => 10,
        Step::Triangulate => 11,
    }
}

// Carries out a step; the masks are those of kis, and triangulate takes the shorter diagonals.
pub fn apply(
    s: Step,
    mask: Mask,
    arities: &[u32],
    numbers: &[u32],
    mesh: Mesh<'_>,
    out: &mut MeshMut<'_>,
) -> Result<Counts, Stop>
    ensures { Fills (of_mesh (step_outcome s mask arities.now numbers.now) mesh.entry) out.old result out.new }
{
    match s {
        Step::Ambo(t) => operators::ambo(mesh, t, out),
        Step::Chamfer(t) => operators::chamfer(mesh, t, out),
        Step::Dual => operators::dual(mesh, out),
        Step::Gyro(t, h) => operators::gyro(mesh, t, h, out),
        Step::Kis(h) => operators::kis(mesh, h, mask, arities, numbers, out),
        Step::Propellor(t) => operators::propellor(mesh, t, out),
        Step::Quinto(h) => operators::quinto(mesh, h, out),
        Step::Reflect => operators::reflect(mesh, out),
        Step::Reverse => operators::reverse(mesh, out),
        Step::Whirl(t, h) => operators::whirl(mesh, t, h, out),
        Step::Triangulate => operators::triangulate(mesh, true, out),
    }
}
