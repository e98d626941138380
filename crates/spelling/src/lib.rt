// What crosses the boundary to C and Rust: answers as numbers by value, a number that may be absent as a flag and a value, the masks as flags.

#![tactic(auto)]

ghost use Rattle.std.specs.Prelude.{◌≡◌, cond, [], ◌∷◌};
ghost use Rattle.engine.specs.Result.{words_of};
ghost use Rattle.spelling.specs.Words.{spelled, verdict_words, listing_words, filing, filed_words, writing, written_words, optional, masked};

use engine::{Counts, Stop};
use mesh::Refusal;
use panel::Held;
use picks::Mask;

// An answer: number, place and step of a refusal, or the counts V, E, F; what is not named is 0.
#[repr(C)]
#[derive(Clone, Copy)]
pub struct Words {
    pub number: u32,
    pub place: u32,
    pub step: u32,
    pub v: u32,
    pub e: u32,
    pub f: u32,
}

// What a panel file holds, or why it is refused.
#[repr(C)]
#[derive(Clone, Copy)]
pub struct Filing {
    pub number: u32,
    pub place: u32,
    pub steps: u32,
    pub positions: u32,
    pub faces: u32,
    pub corners: u32,
}

// How many bytes were written of a panel file, or why it is refused.
#[repr(C)]
#[derive(Clone, Copy)]
pub struct Writing {
    pub number: u32,
    pub place: u32,
    pub bytes: u32,
}

// ---- answers

// The words of counts.
fn counted(v: u32, e: u32, f: u32) -> Words
    ensures { spelled result ≡ 0 ∷ 0 ∷ 0 ∷ v ∷ e ∷ f ∷ [] }
{
    Words {
        number: 0,
        place: 0,
        step: 0,
        v,
        e,
        f,
    }
}

// The words of a refusal.
fn refusal(number: u32, place: u32, step: u32) -> Words
    ensures { spelled result ≡ number ∷ place ∷ step ∷ 0 ∷ 0 ∷ 0 ∷ [] }
{
    Words {
        number,
        place,
        step,
        v: 0,
        e: 0,
        f: 0,
    }
}

// The words of an answer.
pub fn spell(answer: Result<Counts, Stop>) -> Words
    ensures { spelled result ≡ words_of answer }
{
    match answer {
        Ok(c) => counted(c.v, c.e, c.f),
        Err(stop) => refusal(stop.number, stop.place, stop.step),
    }
}

// The words of a verdict: its number and place.
pub fn spell_verdict(verdict: Result<(), Refusal>) -> Words
    ensures { spelled result ≡ verdict_words verdict }
{
    let n = verdicts::number_of(verdict);
    let p = verdicts::place_of(verdict);
    refusal(n, p, 0)
}

// The words of a listing: the number of edges stands at E.
pub fn spell_listing(listing: Result<u32, Refusal>) -> Words
    ensures { spelled result ≡ listing_words listing }
{
    match listing {
        Ok(edges) => counted(0, edges, 0),
        Err(why) => refusal(why.number, why.place, 0),
    }
}

// ---- the panel file

// The words of a file that is fine.
fn fine(held: Held) -> Filing
    ensures { filing result ≡ filed_words (Ok held) }
{
    Filing {
        number: 0,
        place: 0,
        steps: held.steps,
        positions: held.positions,
        faces: held.faces,
        corners: held.corners,
    }
}

// The words of what was filed.
pub fn spell_filed(filed: Result<Held, Refusal>) -> Filing
    ensures { filing result ≡ filed_words filed }
{
    match filed {
        Ok(held) => fine(held),
        Err(why) => Filing {
            number: why.number,
            place: why.place,
            steps: 0,
            positions: 0,
            faces: 0,
            corners: 0,
        },
    }
}

// The words of what was written.
pub fn spell_written(written: Result<u32, Refusal>) -> Writing
    ensures { writing result ≡ written_words written }
{
    match written {
        Ok(bytes) => Writing {
            number: 0,
            place: 0,
            bytes,
        },
        Err(why) => Writing {
            number: why.number,
            place: why.place,
            bytes: 0,
        },
    }
}

// ---- what is handed in

// A number that may be absent.
pub fn optional(given: bool, x: f32) -> Option<f32>
    ensures { result ≡ optional given x }
{
    given.then_some(x)
}

// A list that may be absent.
pub fn listed<'a>(given: bool, list: &'a [u32]) -> Option<&'a [u32]>
    ensures { result ≡ cond given (Some list.entry) None }
{
    if given { Some(list) } else { None }
}

// Which masks are given.
pub fn masked(arities: bool, numbers: bool, regular: bool) -> Mask
    ensures { result ≡ masked arities numbers regular }
{
    Mask {
        arities,
        numbers,
        regular,
    }
}
