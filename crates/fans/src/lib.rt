// Numbers 10 and 11 of the table: a vertex in fewer than three faces, and one whose faces form more than one fan.

#![tactic(auto)]

ghost use Rattle.std.specs.Prelude.{◌≡◌, ℕ, ◌<◌, ◌≤◌, length};
ghost use Rattle.slices.specs.First.{lowest};
ghost use Rattle.mesh.specs.Corners.{Paired};
ghost use Rattle.mesh.specs.Lent.{of_mesh};
ghost use Rattle.mesh.specs.Shape.{Shaped, Full};
ghost use Rattle.mesh.specs.Tests.{limit, verdict, faces_at, few, back, split, round_tests, full_tests};

use mesh::{Faces, Mesh, Reason, Refusal, check, faces_at};

// Test 10: the lowest vertex in fewer than three faces.
fn few_at(corners: &[u32], positions: usize) -> Option<usize>
    requires { positions ≤ limit }
    ensures { result ≡ lowest (few corners.now) positions }
{
    slices::lowest(positions, |v| faces_at(corners, v as u32) < 3)
}

// The lowest number of turns, less one, after which one is back at `start`, below `stop`.
fn back_at(faces: Faces<'_>, start: usize, stop: usize) -> Option<usize>
    requires paired { Paired faces.offsets.now faces.corners.now }
    requires start_in_bounds { start < length faces.corners.now }
    ensures { result ≡ lowest (back faces.entry.offsets.now faces.entry.corners.now start) stop }
{
    let mut c = start;
    for j in 0..stop {
        c = faces.turn(c);
        if c == start {
            return Some(j);
        }
    }
    None
}

// Whether the faces round `v` form more than one fan.
#[tactic(auto, using(slices::specs::First::lowest_any))]
fn split_in(faces: Faces<'_>, v: u32) -> bool
    requires paired { Paired faces.offsets.now faces.corners.now }
    requires bound { 3 ≤ faces_at faces.corners.now v }
    ensures { result ≡ split faces.entry.offsets.now faces.entry.corners.now v }
{
    let start = slices::find(faces.corners, v, faces.corners.len());
    let m = faces_at(faces.corners, v);
    back_at(faces, start, m - 1).is_some()
}

// Test 11: the lowest vertex whose faces form more than one fan.
fn split_at(faces: Faces<'_>, positions: usize) -> Option<usize>
    requires paired { Paired faces.offsets.now faces.corners.now }
    requires positions_le_limit { positions ≤ limit }
    requires three { (v : ℕ) → v < positions → 3 ≤ faces_at faces.corners.now v }
    ensures { result ≡ lowest (split faces.entry.offsets.now faces.entry.corners.now) positions }
{
    slices::lowest(positions, |v| split_in(faces, v as u32))
}

// Numbers 10 and 11.
#[tactic(auto, using(mesh::specs::Tests::rows), unfolding(mesh::specs::Tests::round_tests))]
pub fn check_round(offsets: &[u32], corners: &[u32], positions: usize) -> Result<(), Refusal>
    requires shaped { Shaped offsets.now (length corners.now) }
    requires full { Full offsets.now }
    requires paired { Paired offsets.now corners.now }
    requires positions_le_limit { positions ≤ limit }
    ensures { result ≡ verdict (round_tests offsets.now corners.now positions) }
{
    Reason::Few.refuse(few_at(corners, positions))?;
    Reason::Split.refuse(split_at(Faces { offsets, corners }, positions))
}

// The whole table with numbers 10 and 11: any three slices.
#[tactic(auto, using(mesh::specs::Tests::groups))]
pub fn check_full(mesh: Mesh<'_>) -> Result<(), Refusal>
    ensures { result ≡ verdict (of_mesh full_tests mesh.entry) }
{
    check(mesh)?;
    check_round(mesh.offsets, mesh.corners, mesh.coords.len() / 3)
}
