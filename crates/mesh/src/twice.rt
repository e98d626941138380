// Whether a vertex stands twice in a run of corners.

ghost use Rattle.std.specs.Prelude.{◌≡◌, ◌≤◌, length};
ghost use Rattle.slices.specs.First.{any, lowest};
ghost use Rattle.mesh.specs.Tests.{limit, seen};
ghost use Rattle.mesh.specs.Twice.{Inside, Unmarked, again, in_window};

// The lowest place of a face's run of corners whose vertex stands before it too.
fn seen_at(run: &[u32]) -> Option<usize>
    ensures { result ≡ lowest (seen run.now) (length run.now) }
{
    slices::lowest(run.len(), |i| slices::find(run, run[i], i) < i)
}

// Whether vertex `v` is one of the `width` vertices from `low` on.
#[tactic(auto, unfolding(crate::specs::Twice::in_window))]
fn in_window(v: usize, low: usize, width: usize) -> bool
    ensures { result ≡ in_window low width v }
{
    low <= v && v - low < width
}

// Whether one of the vertices from `low` on, a mark for each, stands twice in a face's run of corners.
fn marked_twice(run: &[u32], low: usize, marks: &mut [bool]) -> bool
    requires { Unmarked marks.old }
    ensures { result ≡ any (again low (length marks.old) run.now) (length run.now) }
{
    for v in run {
        let v = *v as usize;
        if in_window(v, low, marks.len()) {
            if marks[v - low] {
                return true;
            }
            marks[v - low] = true;
        }
    }
    false
}

// Whether one of the 4096 vertices from `low` on stands twice in a face's run of corners.
fn twice_from(run: &[u32], low: usize) -> bool
    ensures { result ≡ any (again low 4096 run.now) (length run.now) }
{
    let mut marks = [false; 4096];
    marked_twice(run, low, &mut marks)
}

// Whether a vertex stands twice in a long run of corners: a walk for each 4096 vertices.
fn twice_in_long(run: &[u32], positions: usize) -> bool
    requires inside { Inside run.now positions }
    requires positions_le_limit { positions ≤ limit }
    ensures { result ≡ any (seen run.now) (length run.now) }
{
    let mut low = 0;
    while low < positions {
        if twice_from(run, low) {
            return true;
        }
        low += 4096;
    }
    false
}

// Whether a vertex stands twice in a face's run of corners.
#[tactic(auto, using(slices::specs::First::lowest_any))]
pub fn twice_in(run: &[u32], positions: usize) -> bool
    requires inside { Inside run.now positions }
    requires positions_le_limit { positions ≤ limit }
    ensures { result ≡ any (seen run.now) (length run.now) }
{
    if run.len() > 256 {
        twice_in_long(run, positions)
    } else {
        seen_at(run).is_some()
    }
}
