// The calls on a book. Each is lent what it needs of the memory, and leaves all of it as it was if it refuses.
// Records and words stay two loans: which of them a call may write is what its borrows promise, and it differs by call.
// Areas, connections and numbers come in as bytes: any may come, and the refusal carries it. An hour and its value come
// one by one: most tests and writes take the hour alone.
ghost use Rattle.std.specs.Prelude.{◌≡◌, ℕ, List, length, None};
ghost use Rattle.hours.specs.declared.record.HourRecord.{HourRecord};
ghost use Rattle.book.specs.Memory.{after_amend, after_choose, after_open, after_post, done, read, state};
ghost use Rattle.book.specs.Plain.{amend_answer, chosen, choose_answer, missing_answer, open_answer, opened, post_answer, written};

use super::account::{Opening, Subscription};
use super::book::Book;
use super::checks::{
    check_choice, check_limits, check_memory, check_open, check_opened, check_place, has_value,
};
use super::period::Period;
use calendar::{Calendar, Year};
use hours::{HourRecord, clear, count_present, mark, write_record};
use refusals::BookRefusal;

impl Book {
    // A book that was never opened.
    pub fn new() -> Book
        ensures never_opened { result.opening ≡ None }
    {
        Book { opening: None }
    }

    // A new year at a connection: no hour has a value.
    pub fn open(
        &mut self,
        records: &[HourRecord],
        words: &mut [u64],
        year: u16,
        area: u8,
        connection: u8,
    ) -> Result<(), BookRefusal>
        ensures answer { let before = state self.old.opening records.now words.old in result ≡ done (open_answer (length before.records) (length before.words) year area connection) }
        ensures after { let before = state self.old.opening records.now words.old in state self.new.opening records.now words.new ≡ after_open (open_answer (length before.records) (length before.words) year area connection) before }
        ensures plain { let before = state self.old.opening records.now words.old in read (state self.new.opening records.now words.new) ≡ opened (open_answer (length before.records) (length before.words) year area connection) (read before) }
    {
        let opening = check_open(records, words, year, area, connection)?;
        clear(words);
        self.opening = Some(opening);
        Ok(())
    }

    // A first value for an hour.
    #[tactic(auto, using(crate::proofs::Changes::post_accepted))]
    pub fn post(
        &self,
        records: &mut [HourRecord],
        words: &mut [u64],
        hour: u16,
        value: HourRecord,
    ) -> Result<(), BookRefusal>
        ensures answer { let before = state self.now.opening records.old words.old in result ≡ post_answer (length before.records) (length before.words) (read before) hour value }
        ensures after { let before = state self.now.opening records.old words.old in state self.now.opening records.new words.new ≡ after_post result before hour value }
        ensures plain { let before = state self.now.opening records.old words.old in read (state self.now.opening records.new words.new) ≡ written result (read before) hour value }
    {
        check_place(self.opening, records, words, hour, value)?;
        if has_value(self.opening, words, hour) {
            return Err(BookRefusal::Present { hour });
        }
        write_record(records, hour, value);
        mark(words, hour);
        Ok(())
    }

    // A new value for an hour that has one.
    #[tactic(auto, using(crate::proofs::Changes::amend_accepted))]
    pub fn amend(
        &self,
        records: &mut [HourRecord],
        words: &[u64],
        hour: u16,
        value: HourRecord,
    ) -> Result<(), BookRefusal>
        ensures answer { let before = state self.now.opening records.old words.now in result ≡ amend_answer (length before.records) (length before.words) (read before) hour value }
        ensures after { let before = state self.now.opening records.old words.now in state self.now.opening records.new words.now ≡ after_amend result before hour value }
        ensures plain { let before = state self.now.opening records.old words.now in read (state self.now.opening records.new words.now) ≡ written result (read before) hour value }
    {
        check_place(self.opening, records, words, hour, value)?;
        if !has_value(self.opening, words, hour) {
            return Err(BookRefusal::Absent { hour });
        }
        write_record(records, hour, value);
        Ok(())
    }

    // Another subscription.
    pub fn choose(&mut self, subscription: Subscription) -> Result<(), BookRefusal>
        ensures answer { result ≡ done (choose_answer self.old.opening subscription) }
        ensures after { self.new.opening ≡ after_choose (choose_answer self.old.opening subscription) self.old.opening }
        ensures plain { (records : List HourRecord) (words : List ℕ) → read (state self.new.opening records words) ≡ chosen (choose_answer self.old.opening subscription) (read (state self.old.opening records words)) }
    {
        let opening = check_opened(self.opening)?;
        check_choice(opening.connection, subscription.choice)?;
        check_limits(opening.connection, subscription)?;
        self.opening = Some(Opening {
            subscription,
            ..opening
        });
        Ok(())
    }

    // How many hours of a month, or of the year for 13, have no value.
    pub fn missing(
        &self,
        records: &[HourRecord],
        words: &[u64],
        number: u8,
    ) -> Result<u16, BookRefusal>
        ensures answer { let before = state self.now.opening records.now words.now in result ≡ missing_answer (length before.records) (length before.words) (read before) number }
    {
        check_memory(records, words)?;
        let opening = check_opened(self.opening)?;
        let period = Period::try_from(number)?;
        let calendar = Calendar::new(Year {
            number: opening.year,
        });
        let span = period.hours(&calendar);
        Ok(span.end - span.first - count_present(words, span))
    }
}
