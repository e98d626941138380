// The small meshes that the bench pieces share.

use mesh::Mesh;

// A tetrahedron.
pub const T: Mesh<'static> = Mesh {
    offsets: &[0, 3, 6, 9, 12],
    corners: &[0, 1, 2, 0, 3, 1, 0, 2, 3, 1, 3, 2],
    coords: &[
        1.0, 1.0, 1.0, -1.0, 1.0, -1.0, 1.0, -1.0, -1.0, -1.0, -1.0, 1.0,
    ],
};

// A triangle on the first three positions of T.
pub const TRIANGLE: Mesh<'static> = Mesh {
    offsets: &[0, 3],
    corners: &[0, 1, 2],
    coords: &[1.0, 1.0, 1.0, -1.0, 1.0, -1.0, 1.0, -1.0, -1.0],
};

// The triangle and the same one turned over.
pub const PILLOW: Mesh<'static> = Mesh {
    offsets: &[0, 3, 6],
    corners: &[0, 1, 2, 0, 2, 1],
    coords: &[1.0, 1.0, 1.0, -1.0, 1.0, -1.0, 1.0, -1.0, -1.0],
};

// Two tetrahedra that share vertex 0.
pub const TWO_T: Mesh<'static> = Mesh {
    offsets: &[0, 3, 6, 9, 12, 15, 18, 21, 24],
    corners: &[
        0, 1, 2, 0, 3, 1, 0, 2, 3, 1, 3, 2, 0, 4, 5, 0, 6, 4, 0, 5, 6, 4, 6, 5,
    ],
    coords: &[
        1.0, 1.0, 1.0, -1.0, 1.0, -1.0, 1.0, -1.0, -1.0, -1.0, -1.0, 1.0, -2.0, 2.0, -2.0, 2.0,
        -2.0, -2.0, -2.0, -2.0, 2.0,
    ],
};
