// A verdict of the refusal table as its number and its place.

#![tactic(auto)]

ghost use Rattle.std.specs.Prelude.{◌≡◌};
ghost use Rattle.mesh.specs.Tests.{number_of, place_of};

use mesh::Refusal;

// The number where nothing is refused.
const NO_NUMBER: u32 = 0;

// The place where nothing is refused.
const NO_PLACE: u32 = 0;

// The number that a verdict stands for: 0 where nothing is refused.
pub fn number_of(v: Result<(), Refusal>) -> u32
    ensures { result ≡ number_of v }
{
    v.err().map_or(NO_NUMBER, |r| r.number)
}

// The place of a verdict: 0 where nothing is refused.
pub fn place_of(v: Result<(), Refusal>) -> u32
    ensures { result ≡ place_of v }
{
    v.err().map_or(NO_PLACE, |r| r.place)
}
