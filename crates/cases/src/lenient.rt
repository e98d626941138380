// Reading and printing that do not fail.

ghost use Rattle.std.specs.Prelude.{IsOk};
ghost use Rattle.std.specs.Io.{ReadsAtMost};

use std::fmt::Display;
use std::io;
use std::io::Read;

// A reader whose input ends where a read fails.
#[derive(Drop)]
pub struct Ending<R>(pub R);

impl<R: Read> Read for Ending<R> {
    fn read(&mut self, buf: &mut [u8]) -> io::Result<usize>
        ensures bound { ReadsAtMost result buf.new }
        ensures answers { IsOk result }
    {
        Ok(self.0.read(buf).unwrap_or(0))
    }
}

// What prints, and drops what the system does not write.
#[derive(Clone, Copy)]
pub struct Dropping<'a, P>(pub &'a P);

impl<P: Print> Print for Dropping<'_, P> {
    fn print<D: Display + Drop>(&self, value: D) -> io::Result<()>
        ensures { IsOk result }
    {
        let _ = self.0.print(value);
        Ok(())
    }

    fn println<D: Display + Drop>(&self, value: D) -> io::Result<()>
        ensures { IsOk result }
    {
        let _ = self.0.println(value);
        Ok(())
    }

    fn write_all(&self, bytes: &[u8]) -> io::Result<()>
        ensures { IsOk result }
    {
        let _ = self.0.write_all(bytes);
        Ok(())
    }
}
