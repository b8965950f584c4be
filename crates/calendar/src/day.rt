// A day of a calendar's year: its number, and its first hour. Hours and days are two types, since each ends with a number of its
// own.
ghost use Rattle.std.specs.Prelude.{◌≡◌, ◌<◌, ◌≤◌};
ghost use Rattle.std.specs.Option.{MatchOption};
ghost use Rattle.calendar.specs.Days.{year_days};
ghost use Rattle.calendar.specs.Hours.{midnight};

use crate::calendar::Calendar;
use crate::hour::HourOfYear;

#[derive(Clone, Copy)]
pub(crate) struct DayOfYear<'a> {
    pub(crate) calendar: &'a Calendar,
    pub(crate) number: u16,
    ghost within: { number < year_days calendar.now.year.number },
}

impl<'a> DayOfYear<'a> {
    // None past the year's last day.
    pub(crate) fn new(calendar: &'a Calendar, number: u16) -> Option<DayOfYear<'a>>
        ensures { MatchOption result (year_days calendar.now.year.number ≤ number) (λ d. (d.calendar.now ≡ calendar.now) × (d.number ≡ number)) }
    {
        if number < calendar.days() {
            Some(DayOfYear { calendar, number })
        } else {
            None
        }
    }

    // The hour at which the day begins by the clock.
    #[tactic(auto, using(crate::proofs::HourLaws::midnight_in_year))]
    pub(crate) fn first_hour(self) -> HourOfYear<'a>
        ensures calendar { result.calendar.now ≡ self.entry.calendar.now }
        ensures midnight { result.number ≡ midnight self.entry.calendar.now.year.number self.entry.number }
    {
        HourOfYear {
            calendar: self.calendar,
            number: self.calendar.midnight(self.number),
        }
    }
}
