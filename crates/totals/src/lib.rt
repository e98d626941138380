// What a report says of a mesh: X and H as whole numbers, and the answer of each step of a recipe.

#![tactic(auto)]

ghost use Rattle.std.specs.Prelude.{◌≡◌};
ghost use Rattle.totals.specs.Totals.{difference, half_of, euler_of, handles_of, answer_at};

use chain::Ran;
use engine::{Counts, Stop};

// A whole number by its sign and size; 0 has no sign.
#[derive(Clone, Copy)]
pub struct Whole {
    pub minus: bool,
    pub size: u64,
}

// a - b
fn take_away(a: u64, b: u64) -> Whole
    ensures { result ≡ difference a b }
{
    Whole {
        minus: a < b,
        size: a.abs_diff(b),
    }
}

// Half of it, rounded toward zero.
fn half(w: Whole) -> Whole
    ensures { result ≡ half_of w }
{
    let size = w.size / 2;
    Whole {
        minus: w.minus && 0 < size,
        size,
    }
}

// X is V - E + F.
pub fn euler(c: Counts) -> Whole
    ensures { result ≡ euler_of c }
{
    take_away(u64::from(c.v) + u64::from(c.f), u64::from(c.e))
}

// H, the number of handles, is (2 - X) / 2, rounded toward zero.
pub fn handles(c: Counts) -> Whole
    ensures { result ≡ handles_of c }
{
    half(take_away(u64::from(c.e) + 2, u64::from(c.v) + u64::from(c.f)))
}

// The answer of step k + 1 of a recipe that was run.
#[tactic(auto, unfolding(crate::specs::Totals::answer_at))]
pub fn answer_at(ran: Ran, k: usize) -> Result<Counts, Stop>
    ensures { result ≡ answer_at ran k }
{
    match ran.rows.get(k) {
        Some(row) if k < ran.done => Ok(Counts {
            v: row.v,
            e: row.e,
            f: row.f,
        }),
        _ => ran.answer,
    }
}
