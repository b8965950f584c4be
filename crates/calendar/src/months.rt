// The months of a year.
ghost use Rattle.std.specs.Prelude.{◌≡◌, nat_lt};
ghost use Rattle.std.specs.Option.{option_map};
ghost use Rattle.calendar.specs.Hours.{year_hours, month_of, month_first, month_end};
ghost use Rattle.calendar.specs.Years.{provided};

use crate::calendar::Calendar;
use crate::hour::HourOfYear;
use crate::month::Month;
use crate::span::Span;

impl Calendar {
    pub fn month_hours(&self, month: Month) -> Span
        ensures first { result.first ≡ month_first self.now.year.number month.number }
        ensures end { result.end ≡ month_end self.now.year.number month.number }
    {
        let number = month.number as usize;
        Span {
            first: self.month_ends[number - 1],
            end: self.month_ends[number],
        }
    }

    // The month of an hour by the clock; none past the year's last hour.
    pub fn month_of(&self, hour: u16) -> Option<Month>
        ensures month { let y = self.now.year.number in option_map (λ m. m.number) result ≡ provided (nat_lt hour (year_hours y)) (month_of y hour) }
    {
        HourOfYear::new(self, hour).map(|hour| hour.month())
    }
}

impl HourOfYear<'_> {
    // The first month that ends after the hour.
    pub(crate) fn month(self) -> Month
        ensures month { result.number ≡ month_of self.entry.calendar.now.year.number self.entry.number }
    {
        let over = self
            .calendar
            .month_ends
            .partition_point(|end| *end <= self.number);
        Month { number: over as u8 }
    }
}
