// The lines of a report, written into lent bytes: a line a step that is done, and what was refused.

#![tactic(auto)]

ghost use Rattle.std.specs.Prelude.{◌≡◌, ◌+◌, ◌*◌, ◌≤◌};
ghost use Rattle.text.specs.Text.{Put};
ghost use Rattle.lines.specs.Lines.{number_then, whole_then, step_line, refusal, end_line, file_line};
ghost use Rattle.lines.specs.Told.{code_at, steps_from, run_lines};

use chain::Ran;
use engine::{Counts, Stop};
use totals::Whole;

// A number and the byte after it.
fn put_then(text: &mut [u8], at: usize, n: u64, after: u8) -> usize
    requires { at ≤ 5000 }
    ensures put { Put (number_then n after) at text.old result text.new }
    ensures upper_bound { result ≤ at + 21 }
{
    let end = text::put_number(text, at, n);
    text::put_byte(text, end, after)
}

// A whole number with its sign, and the byte after it.
fn put_whole(text: &mut [u8], at: usize, w: Whole, after: u8) -> usize
    requires { at ≤ 4000 }
    ensures put { Put (whole_then w after) at text.old result text.new }
    ensures upper_bound { result ≤ at + 22 }
{
    if w.minus {
        let next = text::put_byte(text, at, b'-');
        return put_then(text, next, w.size, after);
    }
    put_then(text, at, w.size, after)
}

// Step, code, V, E, F, X, H.
fn put_step(text: &mut [u8], at: usize, step: usize, code: u32, c: Counts) -> usize
    requires { at ≤ 3000 }
    ensures put { Put (step_line step code c) at text.old result text.new }
    ensures upper_bound { result ≤ at + 150 }
{
    let a = put_then(text, at, step as u64, b' ');
    let b = put_then(text, a, code as u64, b' ');
    let d = put_then(text, b, c.v as u64, b' ');
    let e = put_then(text, d, c.e as u64, b' ');
    let f = put_then(text, e, c.f as u64, b' ');
    let g = put_whole(text, f, totals::euler(c), b' ');
    put_whole(text, g, totals::handles(c), b'\n')
}

// Number, place.
fn put_refusal(text: &mut [u8], at: usize, number: u32, place: u32) -> usize
    requires { at ≤ 4000 }
    ensures put { Put (refusal number place) at text.old result text.new }
    ensures upper_bound { result ≤ at + 42 }
{
    let next = put_then(text, at, number as u64, b' ');
    put_then(text, next, place as u64, b'\n')
}

// Step, `refused`, number, place; nothing where an answer is no refusal.
pub fn put_refused(text: &mut [u8], at: usize, answer: Result<Counts, Stop>) -> usize
    requires { at ≤ 3000 }
    ensures put { Put (end_line answer) at text.old result text.new }
    ensures upper_bound { result ≤ at + 150 }
{
    let Err(stop) = answer else {
        return at;
    };
    let word = put_then(text, at, stop.step as u64, b' ');
    let next = text::put_run(text, word, b"refused ");
    put_refusal(text, next, stop.number, stop.place)
}

// `file`, number, place.
pub fn put_file(text: &mut [u8], number: u32, place: u32) -> usize
    ensures put { Put (file_line number place) 0 text.old result text.new }
    ensures upper_bound { result ≤ 150 }
{
    let next = text::put_run(text, 0, b"file ");
    put_refusal(text, next, number, place)
}

// The code of step k + 1, 0 where there is no such row.
#[tactic(auto, unfolding(crate::specs::Told::code_at))]
fn code_at(ran: Ran, k: usize) -> u32
    ensures { result ≡ code_at ran k }
{
    match ran.rows.get(k) {
        Some(row) => row.code,
        None => 0,
    }
}

// A line a step, up to the one that was refused.
fn put_steps(text: &mut [u8], ran: Ran, n: usize) -> usize
    requires { n ≤ 16 }
    ensures put { Put (steps_from ran 0 n) 0 text.old result text.new }
    ensures upper_bound { result ≤ 2550 }
{
    let mut at = 0;
    for k in 0..n {
        let answer = totals::answer_at(ran, k);
        let Ok(counts) = answer else {
            return put_refused(text, at, answer);
        };
        at = put_step(text, at, k + 1, code_at(ran, k), counts);
    }
    at
}

// The lines of a recipe of n steps. No steps print nothing unless they are refused.
pub fn put_lines(text: &mut [u8], ran: Ran, n: usize) -> usize
    requires { n ≤ 16 }
    ensures put { Put (run_lines ran n) 0 text.old result text.new }
    ensures upper_bound { result ≤ 2550 }
{
    if n == 0 {
        return put_refused(text, 0, ran.answer);
    }
    put_steps(text, ran, n)
}
