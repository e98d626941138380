// Lent slices: reading a number, the lowest place at which a test holds, copying.
#![tactic(auto)]

ghost use Rattle.std.specs.Prelude.{◌≡◌, ℕ, Bool, ◌+◌, ◌<◌, ◌≤◌, length, get_or};
ghost use Rattle.std.proofs.lemmas.List.Edits.{sets};
ghost use Rattle.slices.specs.First.{first, is_at, lowest};

pub fn wide(x: u32) -> usize
    ensures { result ≡ x }
{
    x as usize
}

pub fn low(x: usize) -> u32
    requires { x < 4294967296 }
    ensures { result ≡ x }
{
    x as u32
}

// The number at a place.
pub fn pick(list: &[u32], i: usize) -> u32
    requires { i < length list.now }
    ensures { result ≡ get_or list.now i 0 }
{
    list[i]
}

// The number at a place, as an index.
pub fn look(list: &[u32], i: usize) -> usize
    requires { i < length list.now }
    ensures { result ≡ get_or list.now i 0 }
{
    wide(list[i])
}

// The lowest number below `stop` at which a test holds.
pub fn lowest<F: Fn(usize) -> bool>(stop: usize, test: F) -> Option<usize>
    requires { (k : ℕ) → k < stop → F.pre test k }
    ensures { (p : ℕ → Bool) → ((k : ℕ) (b : Bool) → k < stop → F.post test k b → b ≡ p k) → result ≡ lowest p stop }
{
    for i in 0..stop {
        if test(i) {
            return Some(i);
        }
    }
    None
}

// The lowest index below `stop` at which `list` has `x`; `stop` where there is none.
#[tactic(auto, using(crate::specs::First::lowest_or_end))]
pub fn find(list: &[u32], x: u32, stop: usize) -> usize
    requires { stop ≤ length list.now }
    ensures { result ≡ first (is_at list.now x) stop }
{
    lowest(stop, |i| list[i] == x).unwrap_or(stop)
}

// All of `list` stored from the start of `out`: one by one, so that no name of the C library is needed for it.
pub fn copy_to_front<T: Copy>(list: &[T], out: &mut [T])
    requires { length list.now ≤ length out.old }
    ensures { out.new ≡ sets out.old 0 list.now }
{
    for i in 0..list.len() {
        out[i] = list[i];
    }
}
