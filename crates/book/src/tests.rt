// Examples worked by hand: each call at the edges of its refusals, and what it leaves in the lent memory.
use super::{Book, Subscription};
use hours::HourRecord;
use refusals::{BookRefusal, Lent, Quantity};

// Memory that is larger than needed and not blank: what is not written stays as it is.
#[cfg(test)]
const RECORDS: [HourRecord; 8786] = [HourRecord {
    active: -32_768,
    reactive: 32_767,
}; 8786];

const WORDS: [u64; 140] = [u64::MAX; 140];

fn value(active: i16, reactive: i16) -> HourRecord {
    HourRecord { active, reactive }
}

fn subscription(choice: u8, power: u16, extra_withdrawal: u16, extra_input: u16) -> Subscription {
    Subscription {
        choice,
        power,
        extra_withdrawal,
        extra_input,
    }
}

#[test]
fn open_clears_a_year_of_words_and_no_more(rt: HostRuntime) {
    let records = RECORDS;
    let mut words = WORDS;
    let mut book = Book::new();
    assert_eq!(rt;
        book.open(&records, &mut words, 2001, 0, 8),
        Err(BookRefusal::Year { year: 2001 })
    );
    assert_eq!(rt;
        book.open(&records, &mut words, 2300, 1, 0),
        Err(BookRefusal::Year { year: 2300 })
    );
    assert_eq!(rt;
        book.open(&records, &mut words, 2022, 4, 8),
        Err(BookRefusal::Area { area: 4 })
    );
    assert_eq!(rt;
        book.open(&records, &mut words, 2022, 3, 8),
        Err(BookRefusal::Connection { connection: 8 })
    );
    assert_eq!(rt; words[0], u64::MAX);
    assert_eq!(rt; book.open(&records, &mut words, 2022, 3, 2), Ok(()));
    assert_eq!(rt; words[0], 0);
    assert_eq!(rt; words[137], 0);
    assert_eq!(rt; words[138], u64::MAX);
}

#[test]
fn memory_one_short_is_refused_first(rt: HostRuntime) {
    let records = RECORDS;
    let mut few = [7u64; 137];
    let mut enough = [7u64; 138];
    let mut book = Book::new();
    let short = Err(BookRefusal::Memory {
        short: Lent::Records,
    });
    assert_eq!(rt; book.open(&records[0..8783], &mut few, 2001, 0, 8), short);
    let short = Err(BookRefusal::Memory { short: Lent::Words });
    assert_eq!(rt; book.open(&records[0..8784], &mut few, 2001, 0, 8), short);
    assert_eq!(rt; few[0], 7);
    assert_eq!(rt;
        book.missing(&records, &few, 0),
        Err(BookRefusal::Memory { short: Lent::Words })
    );
    assert_eq!(rt;
        book.open(&records[0..8784], &mut enough, 2022, 3, 2),
        Ok(())
    );
    assert_eq!(rt; enough[137], 0);
}

#[test]
fn an_hour_is_posted_once_and_amended_in_place(rt: HostRuntime) {
    let mut records = RECORDS;
    let mut words = WORDS;
    let mut book = Book::new();
    assert_eq!(rt;
        book.post(&mut records, &mut words, 0, value(1, 1)),
        Err(BookRefusal::NeverOpened)
    );
    assert_eq!(rt; book.open(&records, &mut words, 2022, 3, 2), Ok(()));
    assert_eq!(rt;
        book.post(&mut records, &mut words, 8760, value(32_001, 0)),
        Err(BookRefusal::Hour { hour: 8760 })
    );
    assert_eq!(rt;
        book.post(&mut records, &mut words, 65, value(32_001, 0)),
        Err(BookRefusal::Value { hour: 65 })
    );
    assert_eq!(rt;
        book.post(&mut records, &mut words, 65, value(0, -32_001)),
        Err(BookRefusal::Value { hour: 65 })
    );
    assert_eq!(rt;
        book.amend(&mut records, &words, 65, value(1, 1)),
        Err(BookRefusal::Absent { hour: 65 })
    );
    assert_eq!(rt; records[65], value(-32_768, 32_767));
    assert_eq!(rt;
        book.post(&mut records, &mut words, 65, value(32_000, -32_000)),
        Ok(())
    );
    assert_eq!(rt; records[65], value(32_000, -32_000));
    assert_eq!(rt; words[1], 2);
    assert_eq!(rt;
        book.post(&mut records, &mut words, 65, value(5, 5)),
        Err(BookRefusal::Present { hour: 65 })
    );
    assert_eq!(rt; records[65], value(32_000, -32_000));
    assert_eq!(rt; book.amend(&mut records, &words, 65, value(-7, 8)), Ok(()));
    assert_eq!(rt; records[65], value(-7, 8));
    assert_eq!(rt; records[64], value(-32_768, 32_767));
    assert_eq!(rt; records[8785], value(-32_768, 32_767));
}

// 2024 is a leap year; a bit past the last hour of 2022 counts as zero.
#[test]
fn the_year_ends_at_its_last_hour(rt: HostRuntime) {
    let mut records = RECORDS;
    let mut words = WORDS;
    let mut book = Book::new();
    assert_eq!(rt; book.open(&records, &mut words, 2024, 1, 7), Ok(()));
    assert_eq!(rt;
        book.post(&mut records, &mut words, 8784, value(0, 0)),
        Err(BookRefusal::Hour { hour: 8784 })
    );
    assert_eq!(rt;
        book.post(&mut records, &mut words, 8783, value(0, 0)),
        Ok(())
    );
    assert_eq!(rt; book.missing(&records, &words, 13), Ok(8783));
    assert_eq!(rt; book.open(&records, &mut words, 2022, 1, 7), Ok(()));
    words[136] = u64::MAX;
    words[137] = u64::MAX;
    assert_eq!(rt;
        book.amend(&mut records, &words, 8760, value(0, 0)),
        Err(BookRefusal::Hour { hour: 8760 })
    );
    assert_eq!(rt; book.missing(&records, &words, 13), Ok(8704));
}

// March 2022 is the 743 hours from 1,416 on, October has 745 hours; both end inside a word.
#[test]
fn missing_counts_the_hours_of_a_month(rt: HostRuntime) {
    let mut records = RECORDS;
    let mut words = WORDS;
    let mut book = Book::new();
    assert_eq!(rt;
        book.missing(&records, &words, 0),
        Err(BookRefusal::NeverOpened)
    );
    assert_eq!(rt; book.open(&records, &mut words, 2022, 3, 2), Ok(()));
    assert_eq!(rt;
        book.missing(&records, &words, 0),
        Err(BookRefusal::Number { number: 0 })
    );
    assert_eq!(rt;
        book.missing(&records, &words, 14),
        Err(BookRefusal::Number { number: 14 })
    );
    assert_eq!(rt; book.missing(&records, &words, 3), Ok(743));
    assert_eq!(rt; book.missing(&records, &words, 10), Ok(745));
    assert_eq!(rt;
        book.post(&mut records, &mut words, 1415, value(1, 1)),
        Ok(())
    );
    assert_eq!(rt;
        book.post(&mut records, &mut words, 1416, value(1, 1)),
        Ok(())
    );
    assert_eq!(rt;
        book.post(&mut records, &mut words, 2158, value(1, 1)),
        Ok(())
    );
    assert_eq!(rt;
        book.post(&mut records, &mut words, 2159, value(1, 1)),
        Ok(())
    );
    assert_eq!(rt; book.missing(&records, &words, 2), Ok(671));
    assert_eq!(rt; book.missing(&records, &words, 3), Ok(741));
    assert_eq!(rt; book.missing(&records, &words, 13), Ok(8756));
}

#[test]
fn a_subscription_is_open_and_within_its_limits(rt: HostRuntime) {
    let records = RECORDS;
    let mut words = WORDS;
    let mut book = Book::new();
    assert_eq!(rt;
        book.choose(subscription(9, 65_535, 0, 0)),
        Err(BookRefusal::NeverOpened)
    );
    assert_eq!(rt; book.open(&records, &mut words, 2022, 3, 0), Ok(()));
    assert_eq!(rt;
        book.choose(subscription(1, 65_535, 0, 0)),
        Err(BookRefusal::Choice { choice: 1 })
    );
    let power = Err(BookRefusal::Limit {
        quantity: Quantity::Power,
    });
    assert_eq!(rt; book.choose(subscription(2, 32_001, 32_001, 0)), power);
    let withdrawal = Err(BookRefusal::Limit {
        quantity: Quantity::ExtraWithdrawal,
    });
    assert_eq!(rt;
        book.choose(subscription(2, 32_000, 32_001, 32_001)),
        withdrawal
    );
    let input = Err(BookRefusal::Limit {
        quantity: Quantity::ExtraInput,
    });
    assert_eq!(rt; book.choose(subscription(2, 32_000, 32_000, 32_001)), input);
    assert_eq!(rt;
        book.choose(subscription(2, 32_000, 32_000, 32_000)),
        Ok(())
    );
    assert_eq!(rt; book.open(&records, &mut words, 2022, 3, 6), Ok(()));
    assert_eq!(rt; book.choose(subscription(0, 20_001, 0, 0)), power);
    assert_eq!(rt; book.choose(subscription(0, 20_000, 0, 0)), Ok(()));
}
