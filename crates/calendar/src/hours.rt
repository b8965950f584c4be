// The hours of a year: how many, which are summer time, and where its days begin.
ghost use Rattle.std.specs.Prelude.{◌≡◌, ◌≤◌};
ghost use Rattle.calendar.specs.Hours.{year_hours, summer_start_of, summer_end_of, midnight};

use crate::calendar::Calendar;
use crate::span::Span;

impl Calendar {
    pub fn hours(&self) -> u16
        ensures year_hours { result ≡ year_hours self.now.year.number }
        ensures at_most { result ≤ 8784 }
    {
        self.hours
    }

    // The hours of summer time.
    pub fn summer_time(&self) -> Span
        ensures first { result.first ≡ summer_start_of self.now.year.number }
        ensures end { result.end ≡ summer_end_of self.now.year.number }
    {
        self.clock.summer
    }

    // The hour at which a day begins by the clock.
    pub(crate) fn midnight(&self, day: u16) -> u16
        requires { day ≤ 366 }
        ensures midnight { result ≡ midnight self.now.year.number day }
    {
        self.clock.midnight(day)
    }
}
