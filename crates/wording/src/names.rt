// Numbers of the service line with the names that people give them.
use book::{Area, Connection, Period};
use refusals::BookRefusal;
use std::fmt;

// A number with its name, as `3 Southern`. A line may hold any number, so what names nothing is `unknown`.
#[derive(Clone, Copy)]
pub enum Named {
    Area(u8),
    Connection(u8),
    Invoice(u8),
}

impl fmt::Display for Named {
    fn fmt<W: fmt::Write>(&self, f: &mut fmt::Formatter<W>) -> fmt::Result {
        match *self {
            Named::Area(number) => numbered(number, Area::try_from(number), f),
            Named::Connection(number) => numbered(number, Connection::try_from(number), f),
            Named::Invoice(number) => numbered(number, Period::try_from(number), f),
        }
    }
}

fn numbered<T: fmt::Display + Copy, W: fmt::Write>(
    number: u8,
    named: Result<T, BookRefusal>,
    f: &mut fmt::Formatter<W>,
) -> fmt::Result {
    match named {
        Ok(name) => write!(f, "{number} {name}"),
        Err(_) => write!(f, "{number} unknown"),
    }
}
