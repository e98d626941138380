// The eleven operators: each a plan, its numbers and a thin public function.

#![tactic(auto)]

mod numbers;

ghost use Rattle.mesh.specs.Lent.{of_mesh};
ghost use Rattle.engine.specs.Result.{Fills};
ghost use Rattle.engine.specs.Plan.{plan_outcome};
ghost use Rattle.engine.specs.Known.{Ruled};
ghost use Rattle.operators.specs.Operators.{reverse_outcome, reflect_outcome, triangulate_outcome, ambo_outcome, dual_outcome, kis_outcome, chamfer_outcome, gyro_outcome, propellor_outcome, whirl_outcome, quinto_outcome};

use engine::{Counts, Plan, Stop};
use mesh::{Mesh, MeshMut, Refusal};
use numbers::{check_numbers, quinto_height, ratio_of};

// Carries out a plan without masks: nothing reads its two lists, so the corners stand for both.
fn unmasked(
    own: Result<(), Refusal>,
    p: Plan,
    mesh: Mesh<'_>,
    out: &mut MeshMut<'_>,
) -> Result<Counts, Stop>
    requires { Ruled p }
    ensures { Fills (of_mesh (plan_outcome p mesh.entry.corners.now mesh.entry.corners.now) mesh.entry own) out.old result out.new }
{
    engine::run(own, p, mesh.corners, mesh.corners, mesh, out)
}

// Each face in the other order.
pub fn reverse(mesh: Mesh<'_>, out: &mut MeshMut<'_>) -> Result<Counts, Stop>
    ensures { Fills (of_mesh reverse_outcome mesh.entry) out.old result out.new }
{
    unmasked(Ok(()), plans::reverse(), mesh, out)
}

// The same, and y turned round.
pub fn reflect(mesh: Mesh<'_>, out: &mut MeshMut<'_>) -> Result<Counts, Stop>
    ensures { Fills (of_mesh reflect_outcome mesh.entry) out.old result out.new }
{
    unmasked(Ok(()), plans::reflect(), mesh, out)
}

// Triangles, by the shorter diagonals or the longer.
pub fn triangulate(mesh: Mesh<'_>, shorter: bool, out: &mut MeshMut<'_>) -> Result<Counts, Stop>
    ensures { Fills (of_mesh triangulate_outcome mesh.entry shorter) out.old result out.new }
{
    unmasked(Ok(()), plans::triangulate(shorter), mesh, out)
}

// One vertex an edge; one face a face, then one a vertex.
pub fn ambo(mesh: Mesh<'_>, ratio: Option<f32>, out: &mut MeshMut<'_>) -> Result<Counts, Stop>
    ensures { Fills (of_mesh ambo_outcome mesh.entry ratio) out.old result out.new }
{
    let own = check_numbers(ratio, None);
    let p = plans::ambo(ratio_of(1.0 / 2.0, ratio));
    unmasked(own, p, mesh, out)
}

// One vertex a face; one face a vertex.
pub fn dual(mesh: Mesh<'_>, out: &mut MeshMut<'_>) -> Result<Counts, Stop>
    ensures { Fills (of_mesh dual_outcome mesh.entry) out.old result out.new }
{
    unmasked(Ok(()), plans::dual(), mesh, out)
}

// One vertex a picked face, and triangles to it; a face that is not picked as it is. The lists are of arities and of face numbers.
pub fn kis(
    mesh: Mesh<'_>,
    height: Option<f32>,
    mask: picks::Mask,
    arities: &[u32],
    numbers: &[u32],
    out: &mut MeshMut<'_>,
) -> Result<Counts, Stop>
    ensures { Fills (of_mesh kis_outcome mesh.entry height mask arities.now numbers.now) out.old result out.new }
{
    let own = check_numbers(None, height);
    let p = plans::kis(mask, height.unwrap_or(0.0));
    engine::run(own, p, arities, numbers, mesh, out)
}

// One vertex a corner; inner faces, then hexagons.
pub fn chamfer(mesh: Mesh<'_>, ratio: Option<f32>, out: &mut MeshMut<'_>) -> Result<Counts, Stop>
    ensures { Fills (of_mesh chamfer_outcome mesh.entry ratio) out.old result out.new }
{
    let own = check_numbers(ratio, None);
    let p = plans::chamfer(ratio_of(1.0 / 2.0, ratio));
    unmasked(own, p, mesh, out)
}

// One vertex a face, then two an edge; pentagons.
pub fn gyro(
    mesh: Mesh<'_>,
    ratio: Option<f32>,
    height: Option<f32>,
    out: &mut MeshMut<'_>,
) -> Result<Counts, Stop>
    ensures { Fills (of_mesh gyro_outcome mesh.entry ratio height) out.old result out.new }
{
    let own = check_numbers(ratio, height);
    let p = plans::gyro(ratio_of(1.0 / 3.0, ratio), height.unwrap_or(0.0));
    unmasked(own, p, mesh, out)
}

// Two vertices an edge; inner faces, then quadrilaterals.
pub fn propellor(mesh: Mesh<'_>, ratio: Option<f32>, out: &mut MeshMut<'_>) -> Result<Counts, Stop>
    ensures { Fills (of_mesh propellor_outcome mesh.entry ratio) out.old result out.new }
{
    let own = check_numbers(ratio, None);
    let p = plans::propellor(ratio_of(1.0 / 3.0, ratio));
    unmasked(own, p, mesh, out)
}

// One vertex a corner, then two an edge; hexagons, then inner faces.
pub fn whirl(
    mesh: Mesh<'_>,
    ratio: Option<f32>,
    height: Option<f32>,
    out: &mut MeshMut<'_>,
) -> Result<Counts, Stop>
    ensures { Fills (of_mesh whirl_outcome mesh.entry ratio height) out.old result out.new }
{
    let own = check_numbers(ratio, height);
    let p = plans::whirl(ratio_of(1.0 / 3.0, ratio), height.unwrap_or(0.0));
    unmasked(own, p, mesh, out)
}

// One vertex an edge, then one a corner; inner faces, then pentagons.
pub fn quinto(mesh: Mesh<'_>, height: Option<f32>, out: &mut MeshMut<'_>) -> Result<Counts, Stop>
    ensures { Fills (of_mesh quinto_outcome mesh.entry height) out.old result out.new }
{
    let own = check_numbers(None, height);
    let p = plans::quinto(quinto_height(height));
    unmasked(own, p, mesh, out)
}
