// A mesh copied as it is: what a list of no steps does.

#![tactic(auto)]

ghost use Rattle.std.specs.Prelude.{◌≡◌, length, IfOk};
ghost use Rattle.mesh.specs.Lent.{of_mesh};
ghost use Rattle.engine.specs.Result.{Fills};
ghost use Rattle.copies.specs.Copy.{copy_outcome};
ghost use Rattle.copies.specs.CopyLaws.{copy_verdict, Copied};

use engine::{Counts, Stop};
use mesh::{Mesh, MeshMut, Refusal};

// The table of a copy into this room.
fn check_copy(mesh: Mesh<'_>, room: &MeshMut<'_>) -> Result<(), Refusal>
    ensures value { result ≡ of_mesh copy_verdict mesh.entry (length room.now.offsets.now) (length room.now.corners.now) (length room.now.coords.now) }
    ensures fits { IfOk result (λ _. Copied mesh.entry.offsets.now mesh.entry.corners.now mesh.entry.coords.now (length room.now.offsets.now) (length room.now.corners.now) (length room.now.coords.now)) }
{
    let (corners, numbers) = (mesh.corners.len(), mesh.coords.len());
    mesh::check_size(mesh.offsets, corners, numbers)?;
    mesh::check_faces(mesh.offsets, mesh.corners, mesh.coords)?;
    let faces = mesh.offsets.len() - 1;
    let (lo, lc, lx) = (room.offsets.len(), room.corners.len(), room.coords.len());
    engine::check_room(faces, corners, numbers, lo, lc, lx)
}

// The mesh as it is.
pub fn copy(mesh: Mesh<'_>, out: &mut MeshMut<'_>) -> Result<Counts, Stop>
    ensures { Fills (of_mesh copy_outcome mesh.entry) out.old result out.new }
{
    check_copy(mesh, out)?;
    slices::copy_to_front(mesh.offsets, out.offsets);
    slices::copy_to_front(mesh.corners, out.corners);
    slices::copy_to_front(mesh.coords, out.coords);
    Ok(engine::counts_of(
        mesh.offsets.len() - 1,
        mesh.corners.len(),
        mesh.coords.len(),
    ))
}
