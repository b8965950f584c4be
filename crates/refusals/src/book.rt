// Layer 3: why the book refuses a call. What came in as a number and is refused stays that number.
ghost use Rattle.std.specs.Prelude.{◌≡◌, Some};
ghost use Rattle.refusals.specs.Words.{book_words, lent_words, quantity_words};
ghost use Rattle.refusals.specs.Rows.{row, book_row, lent_place, quantity_place};

use super::Entry;
use std::error::Error;
use std::fmt;

// The two parts of the memory that a caller lends.
#[derive(Clone, Copy, PartialEq, Eq, Debug)]
pub enum Lent {
    Records,
    Words,
}

impl Lent {
    // Its place in the table of refusals, which is no number of the part anywhere else.
    pub(crate) fn place(&self) -> u32
        ensures place { result ≡ lent_place self.now }
    {
        match self {
            Lent::Records => 0,
            Lent::Words => 1,
        }
    }
}

impl fmt::Display for Lent {
    ghost output = { λ r. Some (lent_words r) };

    fn fmt<W: fmt::Write>(&self, f: &mut fmt::Formatter<W>) -> fmt::Result {
        f.write_str(match self {
            Lent::Records => "hour records",
            Lent::Words => "presence words",
        })
    }
}

// What a subscription has beside its choice.
#[derive(Clone, Copy, PartialEq, Eq, Debug)]
pub enum Quantity {
    Power,
    ExtraWithdrawal,
    ExtraInput,
}

impl Quantity {
    // Its place in the table of refusals, which is no number of the quantity anywhere else.
    pub(crate) fn place(&self) -> u32
        ensures place { result ≡ quantity_place self.now }
    {
        match self {
            Quantity::Power => 1,
            Quantity::ExtraWithdrawal => 2,
            Quantity::ExtraInput => 3,
        }
    }
}

impl fmt::Display for Quantity {
    ghost output = { λ r. Some (quantity_words r) };

    fn fmt<W: fmt::Write>(&self, f: &mut fmt::Formatter<W>) -> fmt::Result {
        f.write_str(match self {
            Quantity::Power => "power",
            Quantity::ExtraWithdrawal => "extra reactive withdrawal",
            Quantity::ExtraInput => "extra reactive input",
        })
    }
}

#[derive(Clone, Copy, PartialEq, Eq, Debug)]
pub enum BookRefusal {
    // This part of the lent memory is too short.
    Memory { short: Lent },
    // Open: the year is not 2002 to 2299.
    Year { year: u16 },
    // Open, or a sheet: the area is not 1 to 3.
    Area { area: u8 },
    // Open: the connection is above 7.
    Connection { connection: u8 },
    // The book was never opened.
    NeverOpened,
    // The hour is past the year's last.
    Hour { hour: u16 },
    // A value beyond 32,000 either way.
    Value { hour: u16 },
    // Post: the hour has a value.
    Present { hour: u16 },
    // Amend: the hour has no value.
    Absent { hour: u16 },
    // Choose: the choice is not open to the connection.
    Choice { choice: u8 },
    // Choose: this quantity is over its limit.
    Limit { quantity: Quantity },
    // Invoice or missing: the number is not 1 to 13.
    Number { number: u8 },
}

impl BookRefusal {
    pub(crate) fn entry(&self) -> Entry
        ensures { row 3 result.number result.place ≡ book_row self.now }
    {
        match *self {
            BookRefusal::Memory { short } => Entry::new(20, short.place()),
            BookRefusal::Year { year } => Entry::new(21, u32::from(year)),
            BookRefusal::Area { area } => Entry::new(22, u32::from(area)),
            BookRefusal::Connection { connection } => Entry::new(23, u32::from(connection)),
            BookRefusal::NeverOpened => Entry::new(24, 0),
            BookRefusal::Hour { hour } => Entry::new(25, u32::from(hour)),
            BookRefusal::Value { hour } => Entry::new(26, u32::from(hour)),
            BookRefusal::Present { hour } => Entry::new(27, u32::from(hour)),
            BookRefusal::Absent { hour } => Entry::new(28, u32::from(hour)),
            BookRefusal::Choice { choice } => Entry::new(29, u32::from(choice)),
            BookRefusal::Limit { quantity } => Entry::new(30, quantity.place()),
            BookRefusal::Number { number } => Entry::new(31, u32::from(number)),
        }
    }
}

impl fmt::Display for BookRefusal {
    ghost output = { λ r. Some (book_words r) };

    fn fmt<W: fmt::Write>(&self, f: &mut fmt::Formatter<W>) -> fmt::Result {
        match *self {
            BookRefusal::Memory { short } => write!(f, "too few {short} are lent"),
            BookRefusal::Year { year } => write!(f, "year {year} is not 2002 to 2299"),
            BookRefusal::Area { area } => write!(f, "area {area} is not 1 to 3"),
            BookRefusal::Connection { connection } => write!(
                f,
                "connection {connection} is above 7"
            ),
            BookRefusal::NeverOpened => f.write_str("the book was never opened"),
            BookRefusal::Hour { hour } => write!(f, "hour {hour} is past the year's last"),
            BookRefusal::Value { hour } => write!(
                f,
                "a value beyond 32000 either way for hour {hour}"
            ),
            BookRefusal::Present { hour } => write!(f, "hour {hour} has a value"),
            BookRefusal::Absent { hour } => write!(f, "hour {hour} has no value"),
            BookRefusal::Choice { choice } => write!(
                f,
                "choice {choice} is not open to the connection"
            ),
            BookRefusal::Limit { quantity } => write!(f, "{quantity} over its limit"),
            BookRefusal::Number { number } => write!(f, "number {number} is not 1 to 13"),
        }
    }
}

impl Error for BookRefusal {}
