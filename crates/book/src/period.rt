// The part of the year that a number names: a month, or the whole year.
ghost use Rattle.std.specs.Prelude.{◌≡◌, Some};
ghost use Rattle.std.specs.Fmt.{padded};
ghost use Rattle.book.specs.Names.{period_name};
ghost use Rattle.book.specs.Periods.{PeriodOf, period_number};
ghost use Rattle.book.specs.Plain.{end_hour, first_hour};

use calendar::{Calendar, Month, Span};
use refusals::BookRefusal;
use std::fmt;

#[derive(Clone, Copy, PartialEq, Eq, Debug)]
pub enum Period {
    Month(Month),
    Year,
}

impl TryFrom<u8> for Period {
    type Error = BookRefusal;

    ghost try_from_gives = { PeriodOf };

    fn try_from(number: u8) -> Result<Period, BookRefusal> {
        match Month::new(number) {
            Some(month) => Ok(Period::Month(month)),
            None if number == 13 => Ok(Period::Year),
            None => Err(BookRefusal::Number { number }),
        }
    }
}

impl fmt::Display for Period {
    ghost output = { λ p. Some (period_name p) };

    ghost styled_output = { λ p spec. Some (padded spec (period_name p)) };

    fn fmt<W: fmt::Write>(&self, f: &mut fmt::Formatter<W>) -> fmt::Result {
        match self {
            Period::Month(month) => month.fmt(f),
            Period::Year => f.pad("the whole year"),
        }
    }
}

impl Period {
    // Its hours in the year of the calendar.
    pub fn hours(self, calendar: &Calendar) -> Span
        ensures first { result.first ≡ first_hour calendar.now.year.number (period_number self) }
        ensures end { result.end ≡ end_hour calendar.now.year.number (period_number self) }
    {
        match self {
            Period::Month(month) => calendar.month_hours(month),
            Period::Year => Span {
                first: 0,
                end: calendar.hours(),
            },
        }
    }
}
