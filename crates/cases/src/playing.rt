// Playing the cases of an input, one after the other.

ghost use Rattle.std.specs.Prelude.{◌≡◌, ◌≢◌, Some, [], IfOk, IfErr, IsFalse};

use crate::case::Case;
use crate::fault::Fault;
use crate::lenient::{Dropping, Ending};
use std::alloc::Global;
use std::io;
use std::io::{BufRead, BufWriter, Read, Write};

// How much of a line is gathered before it is written.
const ROOM: usize = 65_536;

// A program that plays cases.
pub trait Player {
    // Reads a case, makes its call and writes its line, without the end of it.
    fn play<R: Read, W: Write>(
        &self,
        input: &mut R,
        alloc: Global,
        out: &mut W,
    ) -> Result<(), Fault>;
}

// A program that plays cases, each in the memory of the one before.
pub trait CasePlayer {
    // Reads a case, makes its call and writes its line, without the end of it; `Ended` where there is none.
    fn play<R: Read, W: Write>(
        &self,
        input: &mut R,
        case: &mut Case,
        alloc: Global,
        out: &mut W,
    ) -> Result<(), Fault>;
}

// A player whose cases share no memory, of an input that has not ended.
#[derive(Clone, Copy)]
struct Alone<'a, P>(&'a P);

impl<P: Player> CasePlayer for Alone<'_, P> {
    fn play<R: Read, W: Write>(
        &self,
        input: &mut R,
        _case: &mut Case,
        alloc: Global,
        out: &mut W,
    ) -> Result<(), Fault>
        ensures { IfErr result (λ why. why ≢ Fault.Ended) }
    {
        match self.0.play(input, alloc, out) {
            Err(Fault::Ended) => Err(Fault::BadCase),
            played => played,
        }
    }
}

// Plays one case, where the input has not ended; whether another may follow.
fn play_case<P: CasePlayer, R: Read, W: Write>(
    player: &P,
    input: &mut R,
    case: &mut Case,
    alloc: Global,
    out: &mut W,
) -> io::Result<bool> {
    match player.play(input, case, alloc, out) {
        Ok(()) => {
            out.write_all(b"\n")?;
            Ok(true)
        }
        Err(Fault::Ended) => Ok(false),
        Err(Fault::BadCase) => {
            writeln!(out, "bad case")?;
            Ok(false)
        }
        Err(Fault::System(error)) => Err(error),
    }
}

// The same of a player whose cases share no memory.
fn play_next<P: Player, R: BufRead, W: Write>(
    player: &P,
    input: &mut R,
    alloc: Global,
    out: &mut W,
) -> io::Result<bool>
    ensures { R.remaining input.old ≡ Some [] → IfOk result IsFalse }
{
    if input.fill_buf()?.is_empty() {
        return Ok(false);
    }
    play_case(&Alone(player), input, &mut Case::new(alloc), alloc, out)
}

// Plays cases until the input ends or what comes is no case. A line is written out when its case is answered. Where the system does not
// read or write, it says so.
pub fn play_all<P: Player, R: Input + Print + AllocGlobal>(player: &P, rt: &R) -> io::Result<()> {
    let mut input = rt.reader();
    let mut out = BufWriter::with_capacity(rt.alloc(), ROOM, io::writer(rt))?;
    for _ in 0..u64::MAX {
        let may_go_on = play_next(player, &mut input, rt.alloc(), &mut out)?;
        out.flush()?;
        if !may_go_on {
            break;
        }
    }
    Ok(())
}

// The same of cases that share memory; the input ends where a read fails, and what the system does not write is dropped.
pub fn play_cases<P: CasePlayer, R: Input + Print + AllocGlobal>(
    player: &P,
    rt: &R,
) -> io::Result<()> {
    let mut input = Ending(rt.reader());
    let printer = Dropping(rt);
    let mut case = Case::new(rt.alloc());
    let mut out = BufWriter::with_capacity(rt.alloc(), ROOM, io::writer(&printer))?;
    for _ in 0..u64::MAX {
        let may_go_on = play_case(player, &mut input, &mut case, rt.alloc(), &mut out)?;
        out.flush()?;
        if !may_go_on {
            break;
        }
    }
    Ok(())
}
