// Every refusal of the unit: one enum for each layer, and `Refusal` over the four.
#![tactic(auto)]

ghost use Rattle.std.specs.Prelude.{◌≡◌, Some};
ghost use Rattle.refusals.specs.Words.{words};
ghost use Rattle.refusals.specs.Rows.{row_of};
ghost use Rattle.refusals.specs.declared.Refusal.TheVariants.{Line, Frame, Book, Tariff};

mod book;
mod frame;
mod line;
mod tariff;

pub use book::{BookRefusal, Lent, Quantity};
pub use frame::FrameRefusal;
pub use line::LineRefusal;
use std::error::Error;
use std::fmt;
pub use tariff::TariffRefusal;

// What the table of refusals has of a refusal beside its layer.
#[derive(Clone, Copy)]
struct Entry {
    number: u8,
    place: u32,
}

impl Entry {
    fn new(number: u8, place: u32) -> Entry
        ensures { result ≡ record { number = number; place = place } }
    {
        Entry { number, place }
    }
}

// Why a line, a frame, a call on the book or a sheet is refused.
#[derive(Clone, Copy, PartialEq, Eq, Debug)]
pub enum Refusal {
    Line(LineRefusal),
    Frame(FrameRefusal),
    Book(BookRefusal),
    Tariff(TariffRefusal),
}

impl Refusal {
    // The layer that refuses: 1 line, 2 frame, 3 book, 4 tariff. It is a number, since an answer's frame carries it.
    pub fn layer(&self) -> u8
        ensures layer { result ≡ (row_of self.now).layer }
    {
        match self {
            Refusal::Line(_) => 1,
            Refusal::Frame(_) => 2,
            Refusal::Book(_) => 3,
            Refusal::Tariff(_) => 4,
        }
    }

    // The number of the refusal in the table of refusals.
    pub fn number(&self) -> u8
        ensures number { result ≡ (row_of self.now).number }
    {
        self.entry().number
    }

    // Where the fault lies: what it counts depends on the number.
    pub fn place(&self) -> u32
        ensures place { result ≡ (row_of self.now).place }
    {
        self.entry().place
    }

    fn entry(&self) -> Entry
        ensures number { result.number ≡ (row_of self.now).number }
        ensures place { result.place ≡ (row_of self.now).place }
    {
        match self {
            Refusal::Line(refusal) => refusal.entry(),
            Refusal::Frame(refusal) => refusal.entry(),
            Refusal::Book(refusal) => refusal.entry(),
            Refusal::Tariff(refusal) => refusal.entry(),
        }
    }
}

impl fmt::Display for Refusal {
    ghost output = { λ r. Some (words r) };

    fn fmt<W: fmt::Write>(&self, f: &mut fmt::Formatter<W>) -> fmt::Result {
        match self {
            Refusal::Line(refusal) => refusal.fmt(f),
            Refusal::Frame(refusal) => refusal.fmt(f),
            Refusal::Book(refusal) => refusal.fmt(f),
            Refusal::Tariff(refusal) => refusal.fmt(f),
        }
    }
}

impl Error for Refusal {}

// The four stand written out, since clauses say what they give, and what a derive writes has no contract.
impl From<LineRefusal> for Refusal {
    ghost from_gives = { λ e r. r ≡ Line e };

    fn from(e: LineRefusal) -> Refusal {
        Refusal::Line(e)
    }
}

impl From<FrameRefusal> for Refusal {
    ghost from_gives = { λ e r. r ≡ Frame e };

    fn from(e: FrameRefusal) -> Refusal {
        Refusal::Frame(e)
    }
}

impl From<BookRefusal> for Refusal {
    ghost from_gives = { λ e r. r ≡ Book e };

    fn from(e: BookRefusal) -> Refusal {
        Refusal::Book(e)
    }
}

impl From<TariffRefusal> for Refusal {
    ghost from_gives = { λ e r. r ≡ Tariff e };

    fn from(e: TariffRefusal) -> Refusal {
        Refusal::Tariff(e)
    }
}
