// The boundary to C and Rust: each exposed function with numbers as themselves, a slice as a pointer and a length, a number that may be absent as a flag and a value, and the answer as six numbers by value.

#![tactic(auto)]

ghost use Rattle.std.specs.Prelude.{◌≡◌, ◌/◌, length};
ghost use Rattle.mesh.specs.Tests.{verdict, tests, full_tests};
ghost use Rattle.edges.specs.EdgeList.{listing};
ghost use Rattle.operators.specs.Operators.{reverse_outcome, reflect_outcome, triangulate_outcome, ambo_outcome, dual_outcome, kis_outcome, chamfer_outcome, gyro_outcome, propellor_outcome, whirl_outcome, quinto_outcome};
ghost use Rattle.steps.specs.Steps.{mesh, room};
ghost use Rattle.panel.specs.Format.{reading, lent};
ghost use Rattle.given.specs.Given.{lent_steps};
ghost use Rattle.called.specs.Called.{given_trail, coded_trail};
ghost use Rattle.spelling.specs.Words.{spelled, verdict_words, optional, masked};
ghost use Rattle.exports.specs.Told.{Told, Listed};
ghost use Rattle.exports.specs.Runs.{Carried, LedgerTold};
ghost use Rattle.exports.specs.Filing.{FileTold, StepsTold, WriteTold};

use mesh::{Mesh, MeshMut};
use spelling::{Filing, Words, Writing};

// ---- the mesh

// Numbers 1, 2, 4 to 9 of any three slices.
#[unsafe(no_mangle)]
pub extern "C" fn cg_check(offsets: &[u32], corners: &[u32], coords: &[f32]) -> Words
    ensures { spelled result ≡ verdict_words (verdict (tests offsets.now corners.now coords.now)) }
{
    let mesh = Mesh {
        offsets,
        corners,
        coords,
    };
    spelling::spell_verdict(mesh::check(mesh))
}

// The same with 10 and 11.
#[unsafe(no_mangle)]
pub extern "C" fn cg_check_full(offsets: &[u32], corners: &[u32], coords: &[f32]) -> Words
    ensures { spelled result ≡ verdict_words (verdict (full_tests offsets.now corners.now coords.now)) }
{
    let mesh = Mesh {
        offsets,
        corners,
        coords,
    };
    spelling::spell_verdict(fans::check_full(mesh))
}

// The edges, listed into `out`.
#[unsafe(no_mangle)]
pub extern "C" fn cg_edges(
    offsets: &[u32],
    corners: &[u32],
    coords: &[f32],
    out: &mut [[u32; 2]],
) -> Words
    ensures { Listed (listing offsets.now corners.now coords.now (length out.old)) out.old result out.new }
{
    let mesh = Mesh {
        offsets,
        corners,
        coords,
    };
    spelling::spell_listing(edges::to_edges(mesh, out))
}

// ---- the operators

// Each face in the other order.
#[unsafe(no_mangle)]
pub extern "C" fn cg_reverse(
    offsets: &[u32],
    corners: &[u32],
    coords: &[f32],
    out_offsets: &mut [u32],
    out_corners: &mut [u32],
    out_coords: &mut [f32],
) -> Words
    ensures { Told (reverse_outcome offsets.now corners.now coords.now (length out_offsets.old) (length out_corners.old) (length out_coords.old)) out_offsets.old out_corners.old out_coords.old result out_offsets.new out_corners.new out_coords.new }
{
    let mesh = Mesh {
        offsets,
        corners,
        coords,
    };
    let mut out = MeshMut {
        offsets: out_offsets,
        corners: out_corners,
        coords: out_coords,
    };
    spelling::spell(operators::reverse(mesh, &mut out))
}

// The same, and y turned round.
#[unsafe(no_mangle)]
pub extern "C" fn cg_reflect(
    offsets: &[u32],
    corners: &[u32],
    coords: &[f32],
    out_offsets: &mut [u32],
    out_corners: &mut [u32],
    out_coords: &mut [f32],
) -> Words
    ensures { Told (reflect_outcome offsets.now corners.now coords.now (length out_offsets.old) (length out_corners.old) (length out_coords.old)) out_offsets.old out_corners.old out_coords.old result out_offsets.new out_corners.new out_coords.new }
{
    let mesh = Mesh {
        offsets,
        corners,
        coords,
    };
    let mut out = MeshMut {
        offsets: out_offsets,
        corners: out_corners,
        coords: out_coords,
    };
    spelling::spell(operators::reflect(mesh, &mut out))
}

// Triangles, by the shorter diagonals or the longer.
#[unsafe(no_mangle)]
pub extern "C" fn cg_triangulate(
    offsets: &[u32],
    corners: &[u32],
    coords: &[f32],
    shorter: bool,
    out_offsets: &mut [u32],
    out_corners: &mut [u32],
    out_coords: &mut [f32],
) -> Words
    ensures { Told (triangulate_outcome offsets.now corners.now coords.now shorter (length out_offsets.old) (length out_corners.old) (length out_coords.old)) out_offsets.old out_corners.old out_coords.old result out_offsets.new out_corners.new out_coords.new }
{
    let mesh = Mesh {
        offsets,
        corners,
        coords,
    };
    let mut out = MeshMut {
        offsets: out_offsets,
        corners: out_corners,
        coords: out_coords,
    };
    spelling::spell(operators::triangulate(mesh, shorter, &mut out))
}

// One vertex an edge; one face a face, then one a vertex.
#[unsafe(no_mangle)]
pub extern "C" fn cg_ambo(
    offsets: &[u32],
    corners: &[u32],
    coords: &[f32],
    has_ratio: bool,
    ratio: f32,
    out_offsets: &mut [u32],
    out_corners: &mut [u32],
    out_coords: &mut [f32],
) -> Words
    ensures { Told (ambo_outcome offsets.now corners.now coords.now (optional has_ratio ratio) (length out_offsets.old) (length out_corners.old) (length out_coords.old)) out_offsets.old out_corners.old out_coords.old result out_offsets.new out_corners.new out_coords.new }
{
    let r = spelling::optional(has_ratio, ratio);
    let mesh = Mesh {
        offsets,
        corners,
        coords,
    };
    let mut out = MeshMut {
        offsets: out_offsets,
        corners: out_corners,
        coords: out_coords,
    };
    spelling::spell(operators::ambo(mesh, r, &mut out))
}

// One vertex a face; one face a vertex.
#[unsafe(no_mangle)]
pub extern "C" fn cg_dual(
    offsets: &[u32],
    corners: &[u32],
    coords: &[f32],
    out_offsets: &mut [u32],
    out_corners: &mut [u32],
    out_coords: &mut [f32],
) -> Words
    ensures { Told (dual_outcome offsets.now corners.now coords.now (length out_offsets.old) (length out_corners.old) (length out_coords.old)) out_offsets.old out_corners.old out_coords.old result out_offsets.new out_corners.new out_coords.new }
{
    let mesh = Mesh {
        offsets,
        corners,
        coords,
    };
    let mut out = MeshMut {
        offsets: out_offsets,
        corners: out_corners,
        coords: out_coords,
    };
    spelling::spell(operators::dual(mesh, &mut out))
}

// One vertex a picked face, and triangles to it. A mask that is not given picks every face.
#[unsafe(no_mangle)]
pub extern "C" fn cg_kis(
    offsets: &[u32],
    corners: &[u32],
    coords: &[f32],
    has_height: bool,
    height: f32,
    has_arities: bool,
    arities: &[u32],
    has_numbers: bool,
    numbers: &[u32],
    regular: bool,
    out_offsets: &mut [u32],
    out_corners: &mut [u32],
    out_coords: &mut [f32],
) -> Words
    ensures { Told (kis_outcome offsets.now corners.now coords.now (optional has_height height) (masked has_arities has_numbers regular) arities.now numbers.now (length out_offsets.old) (length out_corners.old) (length out_coords.old)) out_offsets.old out_corners.old out_coords.old result out_offsets.new out_corners.new out_coords.new }
{
    let h = spelling::optional(has_height, height);
    let m = spelling::masked(has_arities, has_numbers, regular);
    let mesh = Mesh {
        offsets,
        corners,
        coords,
    };
    let mut out = MeshMut {
        offsets: out_offsets,
        corners: out_corners,
        coords: out_coords,
    };
    spelling::spell(operators::kis(mesh, h, m, arities, numbers, &mut out))
}

// One vertex a corner; inner faces, then hexagons.
#[unsafe(no_mangle)]
pub extern "C" fn cg_chamfer(
    offsets: &[u32],
    corners: &[u32],
    coords: &[f32],
    has_ratio: bool,
    ratio: f32,
    out_offsets: &mut [u32],
    out_corners: &mut [u32],
    out_coords: &mut [f32],
) -> Words
    ensures { Told (chamfer_outcome offsets.now corners.now coords.now (optional has_ratio ratio) (length out_offsets.old) (length out_corners.old) (length out_coords.old)) out_offsets.old out_corners.old out_coords.old result out_offsets.new out_corners.new out_coords.new }
{
    let r = spelling::optional(has_ratio, ratio);
    let mesh = Mesh {
        offsets,
        corners,
        coords,
    };
    let mut out = MeshMut {
        offsets: out_offsets,
        corners: out_corners,
        coords: out_coords,
    };
    spelling::spell(operators::chamfer(mesh, r, &mut out))
}

// One vertex a face, then two an edge; pentagons.
#[unsafe(no_mangle)]
pub extern "C" fn cg_gyro(
    offsets: &[u32],
    corners: &[u32],
    coords: &[f32],
    has_ratio: bool,
    ratio: f32,
    has_height: bool,
    height: f32,
    out_offsets: &mut [u32],
    out_corners: &mut [u32],
    out_coords: &mut [f32],
) -> Words
    ensures { Told (gyro_outcome offsets.now corners.now coords.now (optional has_ratio ratio) (optional has_height height) (length out_offsets.old) (length out_corners.old) (length out_coords.old)) out_offsets.old out_corners.old out_coords.old result out_offsets.new out_corners.new out_coords.new }
{
    let r = spelling::optional(has_ratio, ratio);
    let h = spelling::optional(has_height, height);
    let mesh = Mesh {
        offsets,
        corners,
        coords,
    };
    let mut out = MeshMut {
        offsets: out_offsets,
        corners: out_corners,
        coords: out_coords,
    };
    spelling::spell(operators::gyro(mesh, r, h, &mut out))
}

// Two vertices an edge; inner faces, then quadrilaterals.
#[unsafe(no_mangle)]
pub extern "C" fn cg_propellor(
    offsets: &[u32],
    corners: &[u32],
    coords: &[f32],
    has_ratio: bool,
    ratio: f32,
    out_offsets: &mut [u32],
    out_corners: &mut [u32],
    out_coords: &mut [f32],
) -> Words
    ensures { Told (propellor_outcome offsets.now corners.now coords.now (optional has_ratio ratio) (length out_offsets.old) (length out_corners.old) (length out_coords.old)) out_offsets.old out_corners.old out_coords.old result out_offsets.new out_corners.new out_coords.new }
{
    let r = spelling::optional(has_ratio, ratio);
    let mesh = Mesh {
        offsets,
        corners,
        coords,
    };
    let mut out = MeshMut {
        offsets: out_offsets,
        corners: out_corners,
        coords: out_coords,
    };
    spelling::spell(operators::propellor(mesh, r, &mut out))
}

// One vertex a corner, then two an edge; hexagons, then inner faces.
#[unsafe(no_mangle)]
pub extern "C" fn cg_whirl(
    offsets: &[u32],
    corners: &[u32],
    coords: &[f32],
    has_ratio: bool,
    ratio: f32,
    has_height: bool,
    height: f32,
    out_offsets: &mut [u32],
    out_corners: &mut [u32],
    out_coords: &mut [f32],
) -> Words
    ensures { Told (whirl_outcome offsets.now corners.now coords.now (optional has_ratio ratio) (optional has_height height) (length out_offsets.old) (length out_corners.old) (length out_coords.old)) out_offsets.old out_corners.old out_coords.old result out_offsets.new out_corners.new out_coords.new }
{
    let r = spelling::optional(has_ratio, ratio);
    let h = spelling::optional(has_height, height);
    let mesh = Mesh {
        offsets,
        corners,
        coords,
    };
    let mut out = MeshMut {
        offsets: out_offsets,
        corners: out_corners,
        coords: out_coords,
    };
    spelling::spell(operators::whirl(mesh, r, h, &mut out))
}

// One vertex an edge, then one a corner; inner faces, then pentagons.
#[unsafe(no_mangle)]
pub extern "C" fn cg_quinto(
    offsets: &[u32],
    corners: &[u32],
    coords: &[f32],
    has_height: bool,
    height: f32,
    out_offsets: &mut [u32],
    out_corners: &mut [u32],
    out_coords: &mut [f32],
) -> Words
    ensures { Told (quinto_outcome offsets.now corners.now coords.now (optional has_height height) (length out_offsets.old) (length out_corners.old) (length out_coords.old)) out_offsets.old out_corners.old out_coords.old result out_offsets.new out_corners.new out_coords.new }
{
    let h = spelling::optional(has_height, height);
    let mesh = Mesh {
        offsets,
        corners,
        coords,
    };
    let mut out = MeshMut {
        offsets: out_offsets,
        corners: out_corners,
        coords: out_coords,
    };
    spelling::spell(operators::quinto(mesh, h, &mut out))
}

// ---- lists and recipes

// The list of this number, from 1 on: bevel, expand, join, medial, meta, needle, ortho, snub, truncate, zip.
#[unsafe(no_mangle)]
pub extern "C" fn cg_list(
    code: u32,
    io: &[u32],
    ic: &[u32],
    ip: &[f32],
    has_ratio: bool,
    ratio: f32,
    has_height: bool,
    height: f32,
    has_arities: bool,
    arities: &[u32],
    regular: bool,
    ao: &mut [u32],
    ac: &mut [u32],
    ap: &mut [f32],
    bo: &mut [u32],
    bc: &mut [u32],
    bp: &mut [f32],
    xo: &mut [u32],
    xc: &mut [u32],
    xp: &mut [f32],
) -> Words
    ensures { Carried (coded_trail code (optional has_ratio ratio) (optional has_height height) has_arities arities.now regular (mesh io.now ic.now ip.now) (room ao.old ac.old ap.old) (room bo.old bc.old bp.old) (room xo.old xc.old xp.old)) (mesh ao.old ac.old ap.old) (mesh bo.old bc.old bp.old) (mesh xo.old xc.old xp.old) result (mesh ao.new ac.new ap.new) (mesh bo.new bc.new bp.new) (mesh xo.new xc.new xp.new) }
{
    let t = spelling::optional(has_ratio, ratio);
    let h = spelling::optional(has_height, height);
    let given = spelling::listed(has_arities, arities);
    let input = Mesh {
        offsets: io,
        corners: ic,
        coords: ip,
    };
    let mut a = MeshMut {
        offsets: ao,
        corners: ac,
        coords: ap,
    };
    let mut b = MeshMut {
        offsets: bo,
        corners: bc,
        coords: bp,
    };
    let mut out = MeshMut {
        offsets: xo,
        corners: xc,
        coords: xp,
    };
    spelling::spell(called::list(code, t, h, given, regular, input, &mut a, &mut b, &mut out))
}

// A recipe, four words a step; the ledger has four numbers a row.
#[unsafe(no_mangle)]
pub extern "C" fn cg_recipe(
    steps: &[[u32; 4]],
    ledger: &mut [u32],
    io: &[u32],
    ic: &[u32],
    ip: &[f32],
    ao: &mut [u32],
    ac: &mut [u32],
    ap: &mut [f32],
    bo: &mut [u32],
    bc: &mut [u32],
    bp: &mut [f32],
    xo: &mut [u32],
    xc: &mut [u32],
    xp: &mut [f32],
) -> Words
    ensures { LedgerTold (given_trail (length ledger.old / 4) steps.now (mesh io.now ic.now ip.now) (room ao.old ac.old ap.old) (room bo.old bc.old bp.old) (room xo.old xc.old xp.old)) ledger.old (mesh ao.old ac.old ap.old) (mesh bo.old bc.old bp.old) (mesh xo.old xc.old xp.old) result ledger.new (mesh ao.new ac.new ap.new) (mesh bo.new bc.new bp.new) (mesh xo.new xc.new xp.new) }
{
    let input = Mesh {
        offsets: io,
        corners: ic,
        coords: ip,
    };
    let mut a = MeshMut {
        offsets: ao,
        corners: ac,
        coords: ap,
    };
    let mut b = MeshMut {
        offsets: bo,
        corners: bc,
        coords: bp,
    };
    let mut out = MeshMut {
        offsets: xo,
        corners: xc,
        coords: xp,
    };
    spelling::spell(called::recipe(steps, ledger, input, &mut a, &mut b, &mut out))
}

// ---- the panel file

// Reads the mesh of a panel file.
#[unsafe(no_mangle)]
pub extern "C" fn cg_panel_read(
    bytes: &[u8],
    out_offsets: &mut [u32],
    out_corners: &mut [u32],
    out_coords: &mut [f32],
) -> Filing
    ensures { FileTold (lent (reading bytes.now) (length out_offsets.old) (length out_corners.old) (length out_coords.old)) out_offsets.old out_corners.old out_coords.old result out_offsets.new out_corners.new out_coords.new }
{
    let mut out = MeshMut {
        offsets: out_offsets,
        corners: out_corners,
        coords: out_coords,
    };
    spelling::spell_filed(panel::read(bytes, &mut out))
}

// Reads the steps of a panel file, four words a step.
#[unsafe(no_mangle)]
pub extern "C" fn cg_panel_steps(bytes: &[u8], out: &mut [[u32; 4]]) -> Filing
    ensures { StepsTold bytes.now (lent_steps (reading bytes.now) (length out.old)) out.old result out.new }
{
    spelling::spell_filed(given::file_steps(bytes, out))
}

// Writes a panel file of steps, four words a step, and a mesh.
#[unsafe(no_mangle)]
pub extern "C" fn cg_panel_write(
    steps: &[[u32; 4]],
    offsets: &[u32],
    corners: &[u32],
    coords: &[f32],
    out: &mut [u8],
) -> Writing
    ensures { WriteTold steps.now offsets.now corners.now coords.now out.old result out.new }
{
    let mesh = Mesh {
        offsets,
        corners,
        coords,
    };
    spelling::spell_written(given::write(steps, mesh, out))
}
