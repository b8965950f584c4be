// How a year's calendar is made.
ghost use Rattle.std.specs.Prelude.{◌≡◌, ℕ, ◌+◌, ◌≤◌, slice_index};
ghost use Rattle.calendar.specs.Days.{year_days, first_weekday_of, weekday};
ghost use Rattle.calendar.specs.Hours.{year_hours, month_end};
ghost use Rattle.calendar.specs.Laws.{MonthsCover, WeeksCover};
ghost use Rattle.calendar.specs.PeakLoad.{easter_sunday_of, days_off_of};
ghost use Rattle.calendar.specs.Weeks.{weeks};

use crate::calendar::Calendar;
use crate::clock::Clock;
use crate::days::year_hours;
use crate::year::Year;
use std::array::from_fn;

impl Calendar {
    pub fn new(year: Year) -> Calendar
        ensures of_year { result.year.number ≡ year.number }
        ensures next_year_goes_on { let y = year.number in first_weekday_of (y + 1) ≡ weekday y (year_days y) }
        ensures months_cover_the_year { MonthsCover year.number }
        ensures weeks_cover_the_year { WeeksCover year.number }
    {
        let clock = Clock::new(year);
        Calendar {
            year,
            clock,
            hours: year_hours(year.number),
            month_ends: clock.month_ends(),
            first_weekday: year.first_weekday(),
            week_count: year.week_count(),
            easter_sunday: year.easter_sunday(),
            days_off: year.days_off(),
        }
    }
}

impl Clock {
    fn month_ends(&self) -> [u16; 13]
        ensures ends { (m : ℕ) → m ≤ 12 → slice_index result m ≡ month_end self.now.year.number m }
    {
        from_fn(|month| self.midnight(self.year.days_to(month as u8)))
    }
}

impl Year {
    #[tactic(auto, using(crate::proofs::DayLaws::days_to_year), unfolding(crate::specs::Weeks::weeks))]
    fn week_count(self) -> u8
        ensures weeks { result ≡ weeks self.number }
        ensures at_most { result ≤ 54 }
    {
        ((self.first_weekday() + self.days_to(12) + 6) / 7) as u8
    }

    // Easter Sunday as a day of the year; it is counted from 22 March.
    fn easter_sunday(self) -> u16
        ensures easter { result ≡ easter_sunday_of self.number }
        ensures sunday { weekday self.number result ≡ 6 }
        ensures at_least { 80 ≤ result }
        ensures at_most { result ≤ 115 }
    {
        self.days_to(2) + 21 + self.easter()
    }

    #[tactic(auto, unfolding(crate::specs::Days::days_to, crate::specs::PeakLoad::days_off_of))]
    fn days_off(self) -> [u16; 9]
        ensures days { result ≡ days_off_of self.number }
    {
        let easter = self.easter_sunday();
        let december = self.days_to(11);
        [
            0,
            5,
            easter - 3,
            easter - 2,
            easter + 1,
            december + 23,
            december + 24,
            december + 25,
            december + 30,
        ]
    }
}
