// What belongs to a year, computed once. The invariant says what each field is.
ghost use Rattle.std.specs.Prelude.{◌≡◌, ℕ, ◌<◌, ◌≤◌, slice_index_or};
ghost use Rattle.calendar.specs.Days.{first_weekday_of, weekday};
ghost use Rattle.calendar.specs.Hours.{year_hours, month_end};
ghost use Rattle.calendar.specs.PeakLoad.{easter_sunday_of, days_off_of};
ghost use Rattle.calendar.specs.Weeks.{weeks};

use crate::clock::Clock;
use crate::year::Year;

#[derive(Clone, Copy, PartialEq, Eq, Debug)]
pub struct Calendar {
    pub year: Year,
    pub(crate) clock: Clock,
    pub(crate) hours: u16,
    // the first hour after each month; entry 0 is 0
    pub(crate) month_ends: [u16; 13],
    // the weekday of 1 January, 0 for Monday: a number, since days are added to it
    pub(crate) first_weekday: u16,
    pub(crate) week_count: u8,
    pub(crate) easter_sunday: u16,
    pub(crate) days_off: [u16; 9],
    ghost same: { clock.year.number ≡ year.number },
    ghost length: { hours ≡ year_hours year.number },
    ghost at_most: { hours ≤ 8784 },
    ghost ends: { ((m : ℕ) → m ≤ 12 → slice_index_or month_ends m 0 ≡ month_end year.number m) },
    ghost begins: { first_weekday ≡ first_weekday_of year.number },
    ghost below: { first_weekday < 7 },
    ghost weeks_in_all: { week_count ≡ weeks year.number },
    ghost few_weeks: { week_count ≤ 54 },
    ghost easter: { easter_sunday ≡ easter_sunday_of year.number },
    ghost sunday: { weekday year.number easter_sunday ≡ 6 },
    ghost off: { days_off ≡ days_off_of year.number },
}
