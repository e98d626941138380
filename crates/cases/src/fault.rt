// Why a case gets no answer.

ghost use Rattle.std.specs.Prelude.{◌≢◌};
ghost use Rattle.cases.specs.declared.fault.Fault.TheVariants.{Ended};

use std::alloc::AllocError;
use std::io;
use std::io::ErrorKind;

// The input has ended, what was read is no case, or the system did not read, write or give memory.
#[derive(Debug, Drop)]
pub enum Fault {
    Ended,
    BadCase,
    System(io::Error),
}

// An input that ends inside a case makes it none.
impl From<io::Error> for Fault {
    ghost from_gives = { λ _ why. why ≢ Ended };

    fn from(error: io::Error) -> Fault {
        match error.kind() {
            ErrorKind::UnexpectedEof => Fault::BadCase,
            _ => Fault::System(error),
        }
    }
}

impl From<AllocError> for Fault {
    ghost from_gives = { λ _ why. why ≢ Ended };

    fn from(error: AllocError) -> Fault {
        Fault::System(io::Error::from(error))
    }
}
