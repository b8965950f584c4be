// Layer 1: why the text of a line carries no frame.
ghost use Rattle.std.specs.Prelude.{◌≡◌, Some};
ghost use Rattle.refusals.specs.Words.{line_words};
ghost use Rattle.refusals.specs.Rows.{row, line_row};

use super::Entry;
use std::error::Error;
use std::fmt;

#[derive(Clone, Copy, PartialEq, Eq, Debug)]
pub enum LineRefusal {
    // Fewer than 4 or more than 64 text bytes, or an odd number.
    Length,
    // A character that is no digit, at this column, from 1.
    Digit { column: u8 },
}

impl LineRefusal {
    pub(crate) fn entry(&self) -> Entry
        ensures { row 1 result.number result.place ≡ line_row self.now }
    {
        match *self {
            LineRefusal::Length => Entry::new(11, 0),
            LineRefusal::Digit { column } => Entry::new(12, u32::from(column)),
        }
    }
}

impl fmt::Display for LineRefusal {
    ghost output = { λ r. Some (line_words r) };

    fn fmt<W: fmt::Write>(&self, f: &mut fmt::Formatter<W>) -> fmt::Result {
        match *self {
            LineRefusal::Length => f.write_str("a line has 4 to 64 bytes, an even number"),
            LineRefusal::Digit { column } => write!(f, "no digit in column {column}"),
        }
    }
}

impl Error for LineRefusal {}
