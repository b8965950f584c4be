// Layer 4: why a sheet does not price the book. Areas, choices and rows are the numbers that an answer's frame carries.
ghost use Rattle.std.specs.Prelude.{◌≡◌, Some};
ghost use Rattle.refusals.specs.Words.{tariff_words};
ghost use Rattle.refusals.specs.Rows.{row, tariff_row};

use super::Entry;
use std::error::Error;
use std::fmt;

#[derive(Clone, Copy, PartialEq, Eq, Debug)]
pub enum TariffRefusal {
    // A sheet of another tariff or area; a weekly sheet has area 0.
    Sheet { area: u8 },
    // The level is not offered: the own one, or for an invoice the chosen one.
    NotOffered { choice: u8 },
    // An hour that is priced has no value; this is the first.
    Incomplete { hour: u16 },
    // A price, fee, rate or cap is out of range; this is the first such row, 7 the supplements.
    OutOfRange { row: u8 },
    // A percentage is no multiple of 5 from 0 to 100; this is the first such row.
    Percentage { row: u8 },
}

impl TariffRefusal {
    pub(crate) fn entry(&self) -> Entry
        ensures { row 4 result.number result.place ≡ tariff_row self.now }
    {
        match *self {
            TariffRefusal::Sheet { area } => Entry::new(32, u32::from(area)),
            TariffRefusal::NotOffered { choice } => Entry::new(33, u32::from(choice)),
            TariffRefusal::Incomplete { hour } => Entry::new(34, u32::from(hour)),
            TariffRefusal::OutOfRange { row } => Entry::new(41, u32::from(row)),
            TariffRefusal::Percentage { row } => Entry::new(42, u32::from(row)),
        }
    }
}

impl fmt::Display for TariffRefusal {
    ghost output = { λ r. Some (tariff_words r) };

    fn fmt<W: fmt::Write>(&self, f: &mut fmt::Formatter<W>) -> fmt::Result {
        match *self {
            TariffRefusal::Sheet { area } => write!(f, "a sheet of another tariff or area, {area}"),
            TariffRefusal::NotOffered { choice } => write!(f, "choice {choice} is not offered"),
            TariffRefusal::Incomplete { hour } => write!(f, "hour {hour} has no value"),
            TariffRefusal::OutOfRange { row } => write!(f, "an amount out of range in row {row}"),
            TariffRefusal::Percentage { row } => write!(
                f,
                "a percentage out of range in row {row}"
            ),
        }
    }
}

impl Error for TariffRefusal {}
