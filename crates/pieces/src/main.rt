// The bench pieces about refusals: a line a case with its name, the number and the place that the check answers.

#![tactic(auto)]

use cases::answers::Checked;
use cases::lenient::Dropping;
use cases::shapes::{PILLOW, T, TRIANGLE, TWO_T};
use mesh::Mesh;
use std::io;

// ---- a line a case

// By the table to 9.
fn closed(rt: &impl Print, name: &str, s: Mesh<'_>) -> io::Result<()> {
    let verdict = mesh::check(s);
    println!(rt; "{name} {}", Checked(verdict))
}

// By the table to 11.
fn round(rt: &impl Print, name: &str, s: Mesh<'_>) -> io::Result<()> {
    let verdict = fans::check_full(s);
    println!(rt; "{name} {}", Checked(verdict))
}

// T with other offsets, corners or coordinates.
fn t_with_offsets(rt: &impl Print, name: &str, offsets: &[u32]) -> io::Result<()> {
    closed(rt, name, Mesh { offsets, ..T })
}

fn t_with_corners(rt: &impl Print, name: &str, corners: &[u32]) -> io::Result<()> {
    closed(rt, name, Mesh { corners, ..T })
}

fn t_with_coords(rt: &impl Print, name: &str, coords: &[f32]) -> io::Result<()> {
    closed(rt, name, Mesh { coords, ..T })
}

// A listing: 0 and how many edges there are, or the refusal; then a line a pair of all that is in the lent list.
fn listed(rt: &impl Print, name: &str, s: Mesh<'_>, lent: &mut [[u32; 2]]) -> io::Result<()> {
    match edges::to_edges(s, lent) {
        Ok(edges) => println!(rt; "{name} 0 {edges}")?,
        Err(why) => {
            let (number, place) = (why.number, why.place);
            println!(rt; "{name} {number} {place}")?
        }
    }
    for [a, b] in lent.iter() {
        println!(rt; " {a} {b}")?;
    }
    Ok(())
}

// ---- nothing refused

const EMPTY: Mesh<'static> = Mesh {
    offsets: &[0],
    corners: &[],
    coords: &[],
};

fn good(rt: &impl Print) -> io::Result<()> {
    closed(rt, "t", T)?;
    round(rt, "t, round", T)?;
    closed(rt, "empty", EMPTY)?;
    round(rt, "empty, round", EMPTY)
}

// ---- 1: by each way, and both

fn offsets_wrong(rt: &impl Print) -> io::Result<()> {
    t_with_offsets(rt, "no offsets", &[])?;
    t_with_offsets(rt, "first not 0", &[1, 3, 6, 9, 12])?;
    t_with_offsets(rt, "a smaller one", &[0, 6, 3, 9, 12])?;
    t_with_offsets(rt, "last too small", &[0, 3, 6, 9, 11])?;
    t_with_offsets(rt, "last too large", &[0, 3, 6, 9, 13])
}

fn coords_wrong(rt: &impl Print) -> io::Result<()> {
    let coords = &[0.0; 13];
    t_with_coords(rt, "no multiple of three", coords)?;
    let offsets = &[0, 3, 6, 9];
    closed(
        rt,
        "both wrong",
        Mesh {
            offsets,
            coords,
            ..T
        },
    )
}

// ---- 2: the limit passes, one more does not

fn many_faces(rt: &impl Print) -> io::Result<()> {
    let offsets = [0u32; 60_002];
    let most = Mesh {
        offsets: &offsets[..60_001],
        corners: &[],
        ..T
    };
    let over = Mesh {
        offsets: &offsets,
        corners: &[],
        ..T
    };
    closed(rt, "60000 faces", most)?;
    closed(rt, "60001 faces", over)
}

fn many_corners(rt: &impl Print) -> io::Result<()> {
    let corners = [0u32; 60_001];
    let most = Mesh {
        offsets: &[0, 60_000],
        corners: &corners[..60_000],
        ..T
    };
    let over = Mesh {
        offsets: &[0, 60_001],
        corners: &corners,
        ..T
    };
    let wrong = Mesh {
        offsets: &[0, 60_000],
        ..over
    };
    closed(rt, "60000 corners", most)?;
    closed(rt, "60001 corners", over)?;
    closed(rt, "60001 corners, offsets wrong", wrong)
}

fn many_positions(rt: &impl Print) -> io::Result<()> {
    let coords = [0.0f32; 180_003];
    let corners = [0u32; 60_001];
    let most = Mesh {
        coords: &coords[..180_000],
        ..EMPTY
    };
    let over = Mesh {
        coords: &coords,
        ..EMPTY
    };
    let both = Mesh {
        offsets: &[0, 60_001],
        corners: &corners,
        ..over
    };
    closed(rt, "60000 positions", most)?;
    closed(rt, "60001 positions", over)?;
    closed(rt, "60001 corners and positions", both)
}

// ---- 4: the value at a place, and at a later one

fn t_coords() -> [f32; 12] {
    [
        1.0, 1.0, 1.0, -1.0, 1.0, -1.0, 1.0, -1.0, -1.0, -1.0, -1.0, 1.0,
    ]
}

fn coord(rt: &impl Print, name: &str, value: f32) -> io::Result<()> {
    let mut coords = t_coords();
    coords[5] = value;
    t_with_coords(rt, name, &coords)
}

fn two_coords(rt: &impl Print, name: &str, value: f32) -> io::Result<()> {
    let mut coords = t_coords();
    coords[0] = value;
    coords[11] = value;
    t_with_coords(rt, name, &coords)
}

fn coords(rt: &impl Print) -> io::Result<()> {
    coord(rt, "infinity", f32::INFINITY)?;
    coord(rt, "minus infinity", f32::NEG_INFINITY)?;
    coord(rt, "not a number", f32::NAN)?;
    coord(rt, "largest", f32::MAX)?;
    two_coords(rt, "two infinities", f32::INFINITY)
}

fn coord_and_short(rt: &impl Print) -> io::Result<()> {
    let mut coords = t_coords();
    coords[11] = f32::INFINITY;
    let offsets = &[0, 2, 6, 9, 12];
    closed(
        rt,
        "infinity and a short face",
        Mesh {
            offsets,
            coords: &coords,
            ..T
        },
    )
}

// ---- 5, 6 and 7

fn short(rt: &impl Print) -> io::Result<()> {
    t_with_offsets(rt, "two corners", &[0, 3, 5, 9, 12])?;
    t_with_offsets(rt, "no corners", &[0, 3, 6, 6, 12])?;
    t_with_offsets(rt, "two short faces", &[0, 3, 5, 7, 12])?;
    let both = Mesh {
        offsets: &[0, 3, 6, 10, 12],
        corners: &[4, 1, 2, 0, 3, 1, 0, 2, 3, 1, 3, 2],
        ..T
    };
    closed(rt, "short face and vertex outside", both)
}

fn outside(rt: &impl Print) -> io::Result<()> {
    t_with_corners(rt, "vertex 4", &[0, 1, 2, 0, 3, 1, 0, 4, 3, 1, 3, 2])?;
    t_with_corners(
        rt,
        "two outside",
        &[0, 1, 2, 0, 3, 1, 0, 2, 3, 4, 3, u32::MAX],
    )?;
    t_with_corners(
        rt,
        "outside and twice",
        &[0, 0, 2, 0, 3, 1, 0, 2, 3, 1, 3, 4],
    )
}

fn twice(rt: &impl Print) -> io::Result<()> {
    t_with_corners(rt, "vertex twice", &[0, 1, 2, 0, 3, 1, 0, 2, 0, 1, 3, 2])?;
    t_with_corners(
        rt,
        "vertex twice in two",
        &[0, 1, 2, 0, 3, 3, 0, 2, 3, 1, 1, 2],
    )?;
    t_with_corners(
        rt,
        "twice and edge again",
        &[0, 1, 2, 0, 1, 2, 0, 2, 3, 1, 3, 1],
    )
}

// ---- 8 and 9

fn again(rt: &impl Print) -> io::Result<()> {
    t_with_corners(rt, "face again", &[0, 1, 2, 0, 1, 2, 0, 2, 3, 1, 3, 2])?;
    t_with_corners(rt, "face turned", &[0, 1, 2, 0, 3, 1, 0, 2, 3, 1, 2, 3])
}

fn alone(rt: &impl Print) -> io::Result<()> {
    let triangle = Mesh {
        coords: T.coords,
        ..TRIANGLE
    };
    closed(rt, "one triangle", triangle)?;
    round(rt, "one triangle, round", triangle)?;
    let open = Mesh {
        offsets: &[0, 3, 6, 9],
        corners: &[0, 1, 2, 0, 3, 1, 0, 2, 3],
        ..T
    };
    closed(rt, "t without its last face", open)
}

// ---- 10 and 11: the table to 9 is passed

fn pillow(rt: &impl Print) -> io::Result<()> {
    closed(rt, "pillow", PILLOW)?;
    round(rt, "pillow, round", PILLOW)
}

fn spare(rt: &impl Print) -> io::Result<()> {
    let spare = Mesh {
        coords: &[1.0; 18],
        ..T
    };
    closed(rt, "t and two spare positions", spare)?;
    round(rt, "t and two spare positions, round", spare)
}

// Two tetrahedra that share a vertex.
fn two_t(rt: &impl Print, name: &str, shape: Mesh<'_>) -> io::Result<()> {
    closed(rt, name, shape)?;
    round(rt, "..., round", shape)
}

fn hubs(rt: &impl Print) -> io::Result<()> {
    two_t(rt, "two t at vertex 0", TWO_T)?;
    let other = Mesh {
        corners: &[
            0, 1, 2, 0, 3, 1, 0, 2, 3, 1, 3, 2, 4, 5, 6, 4, 3, 5, 4, 6, 3, 5, 3, 6,
        ],
        coords: &[1.0; 21],
        ..TWO_T
    };
    two_t(rt, "two t at vertex 3", other)?;
    let spare = Mesh {
        coords: &[1.0; 24],
        ..other
    };
    two_t(rt, "two t at vertex 3 and a spare position", spare)
}

// ---- the edge list

fn edge_lists(rt: &impl Print) -> io::Result<()> {
    listed(rt, "edges of t", T, &mut [[9; 2]; 8])?;
    listed(rt, "edges of t, five places", T, &mut [[9; 2]; 5])?;
    let triangle = Mesh {
        coords: T.coords,
        ..TRIANGLE
    };
    listed(rt, "edges of one triangle", triangle, &mut [[9; 2]; 3])
}

fn sizes(rt: &impl Print) -> io::Result<()> {
    good(rt)?;
    offsets_wrong(rt)?;
    coords_wrong(rt)?;
    many_faces(rt)?;
    many_corners(rt)?;
    many_positions(rt)
}

fn surfaces(rt: &impl Print) -> io::Result<()> {
    coords(rt)?;
    coord_and_short(rt)?;
    short(rt)?;
    outside(rt)?;
    twice(rt)?;
    again(rt)?;
    alone(rt)
}

fn main(rt: HostRuntime) -> io::Result<()> {
    let rt = Dropping(&rt);
    sizes(&rt)?;
    surfaces(&rt)?;
    pillow(&rt)?;
    spare(&rt)?;
    hubs(&rt)?;
    edge_lists(&rt)
}
