// The clock of a year: standard time, and one hour more in summer time.
ghost use Rattle.std.specs.Prelude.{◌≡◌, ◌<◌, ◌≤◌};
ghost use Rattle.calendar.specs.Hours.{summer_start_of, summer_end_of, summer_time, clock, midnight};

use crate::month::Month;
use crate::span::Span;
use crate::year::Year;

#[derive(Clone, Copy, PartialEq, Eq, Debug)]
pub(crate) struct Clock {
    pub(crate) year: Year,
    pub(crate) summer: Span,
    ghost from: { summer.first ≡ summer_start_of year.number },
    ghost to: { summer.end ≡ summer_end_of year.number },
}

impl Clock {
    pub(crate) fn new(year: Year) -> Clock
        ensures of_year { result.year.number ≡ year.number }
    {
        let summer = Span {
            first: 24 * year.last_sunday(Month { number: 3 }) + 2,
            end: 24 * year.last_sunday(Month { number: 10 }) + 2,
        };
        Clock { year, summer }
    }

    // What it shows as the hour begins, in hours since 1 January, 00:00.
    #[tactic(auto, unfolding(crate::specs::Hours::clock))]
    pub(crate) fn shows(&self, hour: u16) -> u16
        requires { hour < 8784 }
        ensures shown { result ≡ clock self.now.year.number hour }
    {
        if self.is_summer_time(hour) {
            hour + 1
        } else {
            hour
        }
    }

    // The hour at which it shows 00:00 of the day.
    #[tactic(auto, unfolding(crate::specs::Hours::midnight, crate::specs::Hours::summer_start_of))]
    pub(crate) fn midnight(&self, day: u16) -> u16
        requires { day ≤ 366 }
        ensures midnight { result ≡ midnight self.now.year.number day }
    {
        let hour = 24 * day;
        if self.is_summer_time(hour) {
            hour - 1
        } else {
            hour
        }
    }

    fn is_summer_time(&self, hour: u16) -> bool
        ensures summer { result ≡ summer_time self.now.year.number hour }
    {
        (self.summer.first..self.summer.end).contains(&hour)
    }
}
