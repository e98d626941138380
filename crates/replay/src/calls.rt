// The operators, called as the words of the header say.

use cases::answers::Called;
use cases::case::Case;
use cases::operator::Operator;
use cases::owned::OwnedMesh;
use engine::{Counts, Stop};
use std::alloc::Global;
use std::io;
use std::io::Write;

// The call of an operator on the mesh of a case, with what is lent.
fn call(operator: Operator, case: &Case, lent: &mut OwnedMesh) -> Result<Counts, Stop> {
    let header = &case.header;
    let (ratio, height, flags) = (header.ratio, header.height, header.flags);
    let mesh = case.mesh.as_mesh();
    let out = &mut lent.as_room();
    match operator {
        Operator::Ambo => operators::ambo(mesh, ratio, out),
        Operator::Chamfer => operators::chamfer(mesh, ratio, out),
        Operator::Dual => operators::dual(mesh, out),
        Operator::Gyro => operators::gyro(mesh, ratio, height, out),
        Operator::Kis => {
            let (arities, faces) = (&case.arities, &case.faces);
            operators::kis(mesh, height, flags.mask(), arities, faces, out)
        }
        Operator::Propellor => operators::propellor(mesh, ratio, out),
        Operator::Quinto => operators::quinto(mesh, height, out),
        Operator::Reflect => operators::reflect(mesh, out),
        Operator::Reverse => operators::reverse(mesh, out),
        Operator::Whirl => operators::whirl(mesh, ratio, height, out),
        Operator::Triangulate => operators::triangulate(mesh, !flags.longer, out),
    }
}

// The lent mesh is printed whole, with what the call left alone.
pub fn write_operator<W: Write>(
    operator: Operator,
    case: &Case,
    alloc: Global,
    out: &mut W,
) -> io::Result<()> {
    let header = &case.header;
    let mut lent = OwnedMesh::lent(alloc, header.rooms, header.fill)?;
    let answer = call(operator, case, &mut lent);
    write!(out, "{}{lent}", Called(answer))
}
