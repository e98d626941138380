// Plays lists, recipes and files back: reads cases from standard input and prints a line of answer for each.
// docs/REPLAY.md says what a case is.

#![tactic(auto)]

mod call;
mod files;

ghost use Rattle.runs.specs.More.{Fits};

use call::Call;
use cases::case::Case;
use cases::fault::Fault;
use cases::playing::{CasePlayer, play_cases};
use files::{read_file, write_file};
use runs::calls::{write_list, write_recipe};
use runs::more::read_header;
use runs::reading::read_all_steps;
use std::alloc::Global;
use std::io;
use std::io::{Read, Write};

struct Rerun;

impl CasePlayer for Rerun {
    fn play<R: Read, W: Write>(
        &self,
        input: &mut R,
        case: &mut Case,
        alloc: Global,
        out: &mut W,
    ) -> Result<(), Fault> {
        let (header, more) = read_header(input)?;
        let call = Call::try_from(&header)?;
        case.refill(input, header)?;
        let steps = read_all_steps(input, alloc, more.steps)?;
        let file = read_file(input, alloc, more.bytes)?;
        match call {
            Call::List(list) => write_list(list, case, &more, alloc, out)?,
            Call::Recipe => write_recipe(&steps, case, &more, alloc, out)?,
            Call::File => write_file(&file, &case.header, alloc, out)?,
        }
        Ok(())
    }
}

fn main(rt: HostRuntime) -> io::Result<()> {
    play_cases(&Rerun, &rt)
}
