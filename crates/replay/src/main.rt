// Plays cases back: reads them from standard input and prints a line of answer for each.
// docs/REPLAY.md says what a case is.

#![tactic(auto)]

mod calls;
mod code;
mod edge_list;
mod leaves;

use calls::write_operator;
use cases::answers::Checked;
use cases::case::Case;
use cases::fault::Fault;
use cases::header::Header;
use cases::playing::{CasePlayer, play_cases};
use code::Code;
use edge_list::write_edges;
use leaves::{write_leaf, write_roots};
use std::alloc::Global;
use std::io;
use std::io::{Read, Write};

// Makes the call of a case and writes its line.
fn answer<W: Write>(code: Code, case: &Case, alloc: Global, out: &mut W) -> io::Result<()> {
    let mesh = &case.mesh;
    match code {
        Code::Operator(operator) => write_operator(operator, case, alloc, out),
        Code::Roots => write_roots(&case.bits, out),
        Code::Leaf(leaf) => write_leaf(leaf, &mesh.coords, &mesh.corners, out),
        Code::Check => write!(out, "{}", Checked(mesh::check(mesh.as_mesh()))),
        Code::CheckFull => write!(out, "{}", Checked(fans::check_full(mesh.as_mesh()))),
        Code::Edges => write_edges(case, alloc, out),
    }
}

struct Replay;

impl CasePlayer for Replay {
    fn play<R: Read, W: Write>(
        &self,
        input: &mut R,
        case: &mut Case,
        alloc: Global,
        out: &mut W,
    ) -> Result<(), Fault> {
        let header = Header::next(input)?;
        let code = Code::try_from(header.code)?;
        case.refill(input, header)?;
        answer(code, case, alloc, out)?;
        Ok(())
    }
}

fn main(rt: HostRuntime) -> io::Result<()> {
    play_cases(&Replay, &rt)
}
