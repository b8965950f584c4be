// A book with the memory that it is lent.
use super::memory;
use super::memory::{Memory, Touched};
use super::script::{Loan, Point, Reading};
use book::{Book, Subscription};
use calendar::{Calendar, Month, Year};
use refusals::BookRefusal;
use std::alloc::{AllocError, Global};
use std::fmt;

#[derive(Drop)]
pub struct Rig {
    book: Book,
    pub memory: Memory,
}

// There is not so much memory.
#[derive(Clone, Copy)]
pub struct NotLent;

impl fmt::Display for NotLent {
    fn fmt<W: fmt::Write>(&self, f: &mut fmt::Formatter<W>) -> fmt::Result {
        write!(
            f,
            "there are {} records and {} words",
            memory::RECORDS,
            memory::WORDS
        )
    }
}

// An accepted call answers what of the memory it may have touched.
impl Rig {
    pub fn new(heap: Global) -> Result<Rig, AllocError> {
        Ok(Rig {
            book: Book::new(),
            memory: Memory::new(heap)?,
        })
    }

    // What later calls are lent.
    pub fn lend(&mut self, loan: Loan) -> Result<(), NotLent> {
        if loan.records > memory::RECORDS || loan.words > memory::WORDS {
            return Err(NotLent);
        }
        self.memory.records.lend(loan.records);
        self.memory.words.lend(loan.words);
        Ok(())
    }

    pub fn open(&mut self, point: Point) -> Result<Touched, BookRefusal> {
        self.book.open(
            self.memory.records.lent(),
            self.memory.words.lent_mut(),
            point.year,
            point.area,
            point.connection,
        )?;
        Ok(Touched::year_of_words())
    }

    pub fn post(&mut self, reading: Reading) -> Result<Touched, BookRefusal> {
        self.book.post(
            self.memory.records.lent_mut(),
            self.memory.words.lent_mut(),
            reading.hour,
            reading.value,
        )?;
        Ok(Touched::hour(reading.hour))
    }

    // It is lent the words to read, and a post to write: two calls, though they look alike.
    pub fn amend(&mut self, reading: Reading) -> Result<Touched, BookRefusal> {
        self.book.amend(
            self.memory.records.lent_mut(),
            self.memory.words.lent(),
            reading.hour,
            reading.value,
        )?;
        Ok(Touched::record(reading.hour))
    }

    pub fn choose(&mut self, subscription: Subscription) -> Result<Touched, BookRefusal> {
        self.book.choose(subscription)?;
        Ok(Touched::nothing())
    }

    pub fn missing(&self, number: u8) -> Result<u16, BookRefusal> {
        self.book.missing(self.memory.records.lent(), self.memory.words.lent(), number)
    }

    // The month of an hour in the year that was opened last.
    pub fn month_of(&self, hour: u16) -> Option<Month> {
        let opening = self.book.opening()?;
        Calendar::new(Year::new(opening.year)?).month_of(hour)
    }
}
