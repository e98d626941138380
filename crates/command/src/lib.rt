// The command `report`: panel files by name or from standard input, their reports on standard output, what failed on standard error.

#![tactic(auto)]

ghost use Rattle.std.specs.Prelude.{◌≡◌, ◌<◌, length, take, IfOk, IfSome};
ghost use Rattle.std.specs.Io.{ReadsAtMost};
ghost use Rattle.std.specs.Io.KnownBytes.{Consumes, IsAtEnd};
ghost use Rattle.reports.specs.Report.{report_of, Holds};

use std::env::FillError;
use std::fmt::InlineText;
use std::io::Read;
use std::rt::{Env, Files};
use std::{fs, io, str};

// A longer argument is not read; the system opens no file by a name of so many bytes.
const MOST_NAME: usize = 4096;

// The system's number for a name that is too long.
const ENAMETOOLONG: i32 = 36;

// The system's number for bytes that are no text. std opens a file by text alone, which is UTF-8.
const EILSEQ: i32 = 84;

// Reads until the buffer is full or the file ends, and answers how many bytes stand at the buffer's start then.
fn read_front<F: Read>(file: &mut F, buf: &mut [u8]) -> io::Result<usize>
    ensures in_bounds { ReadsAtMost result buf.new }
    ensures bytes { IfOk result (λ n. Consumes (F.remaining file.old) (F.remaining file.new) (take n buf.new)) }
    ensures end { IfOk result (λ n. n < length buf.new → IsAtEnd (F.remaining file.new)) }
{
    let mut done = 0;
    while done < buf.len() {
        let more = file.read(&mut buf[done..])?;
        if more == 0 {
            return Ok(done);
        }
        done += more;
    }
    Ok(done)
}

// Puts the report of a whole file at the start of `text`, and answers how long it is; no more of the file is read than that takes.
fn put_report<F: Read>(file: &mut F, text: &mut [u8; reports::MOST_TEXT]) -> io::Result<usize>
    ensures in_bounds { ReadsAtMost result text.new }
    ensures report { IfOk result (λ n. IfSome (F.remaining file.old) (λ bytes. Holds (report_of bytes) text.old n text.new)) }
{
    let mut front = [0u8; reports::MOST_BYTES];
    let n = read_front(file, &mut front)?;
    Ok(reports::report_front(&front, n, text))
}

// The system's words for an error, without the number that std puts behind them.
fn reason(said: &str) -> &str {
    said.rsplit_once(" (os error ")
        .map_or(said, |(words, _)| words)
}

// What could not be done with which file, and why. Nothing is left to do where standard error cannot be written.
fn fail(errors: &impl Print, name: &[u8], what: &str, why: io::Error) {
    let said = InlineText::<256>::of(why);
    let reason = reason(said.as_str());
    let _ = print!(errors; "report: ");
    let _ = errors.write_all(name);
    let _ = println!(errors; "{what}: {reason}");
}

fn print(rt: &impl Print, errors: &impl Print, bytes: &[u8]) {
    if let Err(why) = rt.write_all(bytes) {
        fail(errors, b"standard output", " cannot be written", why);
    }
}

// Reads what comes from an open file and prints its report.
fn report_from<F: Read>(rt: &impl Print, errors: &impl Print, file: &mut F, name: &[u8]) {
    let mut text = [0u8; reports::MOST_TEXT];
    match put_report(file, &mut text) {
        Ok(end) => print(rt, errors, &text[..end]),
        Err(why) => fail(errors, name, " cannot be read", why),
    }
}

fn open<R: Files>(rt: &R, path: &[u8]) -> io::Result<R::File> {
    let Ok(path) = str::from_utf8(path) else {
        return Err(io::Error::from_raw_os_error(EILSEQ));
    };
    fs::open(rt, path)
}

// A file by its name.
fn report_on<R: Files + Print>(rt: &R, errors: &impl Print, path: &[u8]) {
    match open(rt, path) {
        Ok(mut file) => report_from(rt, errors, &mut file, path),
        Err(why) => fail(errors, path, " cannot be opened", why),
    }
}

// A file by its name; of several each report stands under the file's name.
fn report_named<R: Files + Print>(rt: &R, errors: &impl Print, path: &[u8], several: bool) {
    if several {
        print(rt, errors, path);
        print(rt, errors, b"\n");
    }
    report_on(rt, errors, path);
}

// The file that argument i names; answers whether there is such an argument.
fn report_argument<R: Env + Files + Print>(
    rt: &R,
    errors: &impl Print,
    i: usize,
    several: bool,
) -> bool {
    let mut path = [0u8; MOST_NAME];
    match rt.arg(i, &mut path) {
        Ok(n) => report_named(rt, errors, &path[..n], several),
        Err(FillError::TooLong) => {
            let why = io::Error::from_raw_os_error(ENAMETOOLONG);
            fail(errors, b"an argument", " cannot be read", why);
        }
        Err(FillError::NotPresent) => return false,
    }
    true
}

fn is_given(rt: &impl Env, i: usize) -> bool {
    !matches!(rt.arg(i, &mut []), Err(FillError::NotPresent))
}

// The files that the arguments name, or standard input where there are none. `errors` is standard error, which takes names that are no text.
pub fn run<R: Env + Files + Input + Print>(rt: &R, errors: &impl Print) {
    if !is_given(rt, 1) {
        report_from(rt, errors, &mut rt.reader(), b"standard input");
        return;
    }
    let several = is_given(rt, 2);
    for i in 1..usize::MAX {
        if !report_argument(rt, errors, i, several) {
            return;
        }
    }
}
