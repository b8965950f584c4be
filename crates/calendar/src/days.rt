// The days of a year: leap years, months and weekdays.
ghost use Rattle.std.specs.Prelude.{◌≡◌, ◌<◌, ◌≤◌};
ghost use Rattle.calendar.specs.Days.{leap, month_days, days_to, first_weekday_of, last_sunday};
ghost use Rattle.calendar.specs.Hours.{year_hours};

use crate::month::Month;
use crate::year::Year;

#[tactic(auto, unfolding(crate::specs::Days::leap))]
fn is_leap(year: u16) -> bool
    ensures leap { result ≡ leap year }
{
    year % 4 == 0 && (year % 100 != 0 || year % 400 == 0)
}

// How many hours a year has, served or not.
#[tactic(auto, unfolding(crate::specs::Hours::year_hours))]
pub fn year_hours(year: u16) -> u16
    ensures hours { result ≡ year_hours year }
    ensures at_most { result ≤ 8784 }
{
    if is_leap(year) { 8784 } else { 8760 }
}

impl Year {
    fn month_days(self, month: u8) -> u16
        ensures days { result ≡ month_days self.number month }
    {
        match month {
            2 if is_leap(self.number) => 29,
            2 => 28,
            4 | 6 | 9 | 11 => 30,
            _ => 31,
        }
    }

    // The days of the year up to the end of a month; none up to month 0, which is why the month is a number.
    pub(crate) fn days_to(self, month: u8) -> u16
        requires { month ≤ 12 }
        ensures days { result ≡ days_to self.number month }
        ensures at_most { result ≤ 366 }
    {
        (0..month).map(|past| self.month_days(past + 1)).sum()
    }

    // The weekday of 1 January, 0 for Monday.
    #[tactic(auto, unfolding(crate::specs::Days::days_before, crate::specs::Days::first_weekday_of))]
    pub(crate) fn first_weekday(self) -> u16
        ensures weekday { result ≡ first_weekday_of self.number }
        ensures below { result < 7 }
    {
        let past = self.number as u32 - 1;
        ((365 * past + past / 4 - past / 100 + past / 400) % 7) as u16
    }

    // The last Sunday of a month, as a day of the year.
    #[tactic(auto, using(crate::proofs::DayLaws::days_to_low), unfolding(crate::specs::Days::weekday, crate::specs::Days::last_sunday))]
    pub(crate) fn last_sunday(self, month: Month) -> u16
        ensures sunday { result ≡ last_sunday self.number month.number }
        ensures at_most { result ≤ 366 }
    {
        let last = self.days_to(month.number) - 1;
        last - (self.first_weekday() + last + 1) % 7
    }
}
