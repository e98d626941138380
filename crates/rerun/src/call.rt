// What a code calls.

use cases::fault::Fault;
use cases::header::Header;
use named::NamedList;
use runs::calls::list_of;

#[derive(Clone, Copy)]
pub enum Call {
    List(NamedList),
    Recipe,
    File,
}

impl TryFrom<&Header> for Call {
    type Error = Fault;

    fn try_from(header: &Header) -> Result<Call, Fault> {
        match header.code {
            41 => Ok(Call::Recipe),
            42 => Ok(Call::File),
            _ => Ok(Call::List(list_of(header)?)),
        }
    }
}
