// An hour of a calendar's year: its number, what the clock shows as it begins, and its day.
ghost use Rattle.std.specs.Prelude.{◌≡◌, ◌<◌, ◌≤◌};
ghost use Rattle.std.specs.Option.{MatchOption};
ghost use Rattle.calendar.specs.Hours.{year_hours, clock, day_of, time_of};

use crate::calendar::Calendar;
use crate::day::DayOfYear;

#[derive(Clone, Copy)]
pub(crate) struct HourOfYear<'a> {
    pub(crate) calendar: &'a Calendar,
    pub(crate) number: u16,
    ghost within: { number < year_hours calendar.now.year.number },
}

impl<'a> HourOfYear<'a> {
    // None past the year's last hour.
    pub(crate) fn new(calendar: &'a Calendar, number: u16) -> Option<HourOfYear<'a>>
        ensures { MatchOption result (year_hours calendar.now.year.number ≤ number) (λ h. (h.calendar.now ≡ calendar.now) × (h.number ≡ number)) }
    {
        if number < calendar.hours {
            Some(HourOfYear { calendar, number })
        } else {
            None
        }
    }

    // The day of the year by the clock.
    #[tactic(auto, using(crate::proofs::HourLaws::day_of_year), unfolding(crate::specs::Hours::day_of))]
    pub(crate) fn day(self) -> DayOfYear<'a>
        ensures calendar { result.calendar.now ≡ self.entry.calendar.now }
        ensures day { result.number ≡ day_of self.entry.calendar.now.year.number self.entry.number }
    {
        DayOfYear {
            calendar: self.calendar,
            number: self.shown() / 24,
        }
    }

    // The hour of the day by the clock.
    #[tactic(auto, unfolding(crate::specs::Hours::time_of))]
    pub(crate) fn time(self) -> u16
        ensures time { result ≡ time_of self.entry.calendar.now.year.number self.entry.number }
    {
        self.shown() % 24
    }

    // What the clock shows, in hours since 1 January, 00:00.
    fn shown(self) -> u16
        ensures shown { result ≡ clock self.entry.calendar.now.year.number self.entry.number }
    {
        self.calendar.clock.shows(self.number)
    }
}
