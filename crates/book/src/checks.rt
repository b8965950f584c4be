// The tests of the calls, one for each row of the table of refusals.
ghost use Rattle.std.specs.Prelude.{◌≡◌, true, length, Err, IfOk, Some, cond, nat_lt};
ghost use Rattle.refusals.specs.declared.book.BookRefusal.TheVariants as refused;
ghost use Rattle.book.specs.Answers.{beyond, choice_answer, fine, hour_answer, limits_answer, memory_answer, opened_answer, unless, value_answer};
ghost use Rattle.book.specs.Memory.{has_value};
ghost use Rattle.book.specs.Plain.{open_answer, place_answer};
ghost use Rattle.book.specs.Points.{lawful};

use super::account::{Opening, Subscription};
use super::point::{Area, Connection};
use calendar::{Year, year_hours};
use hours::{HourRecord, RECORDS, WORDS, is_present};
use refusals::{BookRefusal, Lent, Quantity};

// The most kWh or kVArh of an hour, either way.
const MOST_VALUE: i16 = 32_000;

// The most kVAr of an extra subscription.
const MOST_EXTRA: u16 = 32_000;

fn refuse_unless(test: bool, refusal: BookRefusal) -> Result<(), BookRefusal>
    ensures answer { result ≡ unless test refusal }
{
    if test { Ok(()) } else { Err(refusal) }
}

fn check_length(short: Lent, length: usize, least: usize) -> Result<(), BookRefusal>
    ensures answer { result ≡ cond (nat_lt length least) (Err (refused.Memory short)) fine }
{
    refuse_unless(length >= least, BookRefusal::Memory { short })
}

pub(crate) fn check_memory(records: &[HourRecord], words: &[u64]) -> Result<(), BookRefusal>
    ensures answer { result ≡ memory_answer (length records.now) (length words.now) }
{
    check_length(Lent::Records, records.len(), RECORDS)?;
    check_length(Lent::Words, words.len(), WORDS)
}

// The tests of open, and what the book then holds.
pub(crate) fn check_open(
    records: &[HourRecord],
    words: &[u64],
    year: u16,
    area: u8,
    connection: u8,
) -> Result<Opening, BookRefusal>
    ensures answer { result ≡ open_answer (length records.now) (length words.now) year area connection }
    ensures lawful { IfOk result (λ o. lawful (Some o) ≡ true) }
{
    check_memory(records, words)?;
    let year = Year::new(year).ok_or(BookRefusal::Year { year })?;
    let area = Area::try_from(area)?;
    let connection = Connection::try_from(connection)?;
    let subscription = Subscription {
        choice: connection.own_choice(),
        power: 0,
        extra_withdrawal: 0,
        extra_input: 0,
    };
    Ok(Opening {
        year: year.number,
        area,
        connection,
        subscription,
    })
}

pub(crate) fn check_opened(opening: Option<Opening>) -> Result<Opening, BookRefusal>
    ensures answer { result ≡ opened_answer opening }
{
    opening.ok_or(BookRefusal::NeverOpened)
}

pub(crate) fn check_hour(year: u16, hour: u16) -> Result<(), BookRefusal>
    ensures answer { result ≡ hour_answer year hour }
{
    refuse_unless(hour < year_hours(year), BookRefusal::Hour { hour })
}

// Whether the hour has a value: the book is open, the hour is one of its year and its bit is one.
pub(crate) fn has_value(opening: Option<Opening>, words: &[u64], hour: u16) -> bool
    ensures held { result ≡ has_value opening words.now hour }
{
    opening.is_some_and(|opening| hour < year_hours(opening.year) && is_present(words, hour))
}

// The tests that post and amend share.
pub(crate) fn check_place(
    opening: Option<Opening>,
    records: &[HourRecord],
    words: &[u64],
    hour: u16,
    value: HourRecord,
) -> Result<(), BookRefusal>
    ensures answer { result ≡ place_answer (length records.now) (length words.now) opening hour value }
{
    check_memory(records, words)?;
    let opening = check_opened(opening)?;
    check_hour(opening.year, hour)?;
    check_value(hour, value)
}

fn is_beyond(value: i16) -> bool
    ensures beyond { result ≡ beyond value }
{
    !(-MOST_VALUE..=MOST_VALUE).contains(&value)
}

pub(crate) fn check_value(hour: u16, value: HourRecord) -> Result<(), BookRefusal>
    ensures answer { result ≡ value_answer hour value }
{
    let beyond = is_beyond(value.active) || is_beyond(value.reactive);
    refuse_unless(!beyond, BookRefusal::Value { hour })
}

pub(crate) fn check_choice(connection: Connection, choice: u8) -> Result<(), BookRefusal>
    ensures answer { result ≡ choice_answer connection choice }
{
    refuse_unless(connection.is_open(choice), BookRefusal::Choice { choice })
}

fn check_limit(quantity: Quantity, value: u16, most: u16) -> Result<(), BookRefusal>
    ensures answer { result ≡ cond (nat_lt most value) (Err (refused.Limit quantity)) fine }
{
    refuse_unless(value <= most, BookRefusal::Limit { quantity })
}

pub(crate) fn check_limits(
    connection: Connection,
    subscription: Subscription,
) -> Result<(), BookRefusal>
    ensures answer { result ≡ limits_answer connection subscription }
{
    check_limit(Quantity::Power, subscription.power, connection.top())?;
    check_limit(
        Quantity::ExtraWithdrawal,
        subscription.extra_withdrawal,
        MOST_EXTRA,
    )?;
    check_limit(Quantity::ExtraInput, subscription.extra_input, MOST_EXTRA)
}
