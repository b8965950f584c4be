// The memory that is lent, what it should hold, and how the two compare.
use super::store::{Counted, Store};
use hours::HourRecord;
use std::alloc::{AllocError, Global};
use std::ops::Range;

// More than a book needs, so that what lies past it is seen too.
pub const RECORDS: u16 = 8800;

pub const WORDS: u16 = 140;

// The records and the words that an accepted call may have changed.
#[derive(Drop)]
pub struct Touched {
    pub records: Range<usize>,
    pub words: Range<usize>,
}

impl Touched {
    pub fn nothing() -> Touched {
        Touched {
            records: 0..0,
            words: 0..0,
        }
    }

    // A book was opened.
    pub fn year_of_words() -> Touched {
        Touched {
            records: 0..0,
            words: 0..hours::WORDS,
        }
    }

    // The hour was posted.
    pub fn hour(hour: u16) -> Touched {
        Touched {
            records: one(hour),
            words: one(hour / 64),
        }
    }

    // The hour was amended.
    pub fn record(hour: u16) -> Touched {
        Touched {
            records: one(hour),
            words: 0..0,
        }
    }
}

fn one(i: u16) -> Range<usize> {
    let i = usize::from(i);
    i..i + 1
}

// What was compared of the records and of the words.
#[derive(Clone, Copy)]
pub struct Compared {
    pub records: Counted,
    pub words: Counted,
}

#[derive(Drop)]
pub struct Memory {
    pub records: Store<HourRecord>,
    pub words: Store<u64>,
}

impl Memory {
    // The memory as it is first: nothing in it is zero, and no two records are alike.
    pub fn new(heap: Global) -> Result<Memory, AllocError> {
        let records = (1..=RECORDS as i16)
            .map(|number| HourRecord {
                active: number,
                reactive: -number,
            })
            .collect(heap)?;
        let words = vec![in heap; u64::MAX; usize::from(WORDS)]?;
        Ok(Memory {
            records: Store::new(heap, records)?,
            words: Store::new(heap, words)?,
        })
    }

    // All that the call may not have touched, against what the call before it left.
    pub fn others(&self, touched: &Touched) -> Compared {
        Compared {
            records: self.records.others(&touched.records),
            words: self.words.others(&touched.words),
        }
    }

    // All that no accepted call may have touched, against what stood there first.
    pub fn untouched(&self) -> Compared {
        Compared {
            records: self.records.untouched(),
            words: self.words.untouched(),
        }
    }

    // Takes over what an accepted call touched, and nothing else.
    pub fn follow(&mut self, touched: &Touched) {
        self.records.follow(&touched.records);
        self.words.follow(&touched.words);
    }
}
