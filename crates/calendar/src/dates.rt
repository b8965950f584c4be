// The days of a year by their dates: Easter, the days off, any other.
ghost use Rattle.std.specs.Prelude.{◌≡◌, ◌<◌, ◌≤◌, nat_lt};
ghost use Rattle.std.specs.Option.{option_map};
ghost use Rattle.calendar.specs.Dates.{weekday_number, day_of_month, date_numbers, date_of};
ghost use Rattle.calendar.specs.Days.{year_days, date, weekday, month_of_day};
ghost use Rattle.calendar.specs.PeakLoad.{easter_sunday_of, days_off_of};
ghost use Rattle.calendar.specs.Years.{provided};

use crate::calendar::Calendar;
use crate::date::{Date, Weekday};
use crate::day::DayOfYear;
use crate::month::Month;

impl Calendar {
    // Easter Sunday as a day of the year.
    pub fn easter_sunday(&self) -> u16
        ensures easter { result ≡ easter_sunday_of self.now.year.number }
        ensures is_a_sunday { weekday self.now.year.number result ≡ 6 }
    {
        self.easter_sunday
    }

    // The days that do not count, as days of the year: New Year's Day, Epiphany, Maundy Thursday, Good Friday, Easter
    // Monday, and 24, 25, 26 and 31 December.
    pub fn days_off(&self) -> [u16; 9]
        ensures days_off { result ≡ days_off_of self.now.year.number }
    {
        self.days_off
    }

    // The date of a day; none past the year's last day.
    pub fn date(&self, day: u16) -> Option<Date>
        ensures date { let y = self.now.year.number in option_map date_numbers result ≡ provided (nat_lt day (year_days y)) (date_of y day) }
        ensures there_and_back { let y = self.now.year.number in (day < year_days y → date y (month_of_day y day) (day_of_month y day) ≡ day) }
    {
        DayOfYear::new(self, day).map(|day| day.date())
    }

    // The days of the year.
    #[tactic(auto, unfolding(crate::specs::Hours::year_hours))]
    pub(crate) fn days(&self) -> u16
        ensures days { result ≡ year_days self.now.year.number }
    {
        self.hours() / 24
    }
}

impl DayOfYear<'_> {
    fn date(self) -> Date
        ensures date { date_numbers result ≡ date_of self.entry.calendar.now.year.number self.entry.number }
        ensures there_and_back { let y = self.entry.calendar.now.year.number in date y (month_of_day y self.entry.number) (day_of_month y self.entry.number) ≡ self.entry.number }
    {
        let month = self.month();
        // the day of the month's first hour: the months before it need not be gone through again
        let first = self
            .calendar
            .clock
            .shows(self.calendar.month_hours(month).first)
            / 24;
        Date {
            weekday: self.weekday(),
            day: (self.number - first + 1) as u8,
            month,
        }
    }

    fn month(self) -> Month
        ensures month { result.number ≡ month_of_day self.entry.calendar.now.year.number self.entry.number }
    {
        self.first_hour().month()
    }

    fn weekday(self) -> Weekday
        ensures weekday { weekday_number result ≡ weekday self.entry.calendar.now.year.number self.entry.number }
    {
        WEEKDAYS[((self.calendar.first_weekday + self.number) % 7) as usize]
    }
}

const WEEKDAYS: [Weekday; 7] = [
    Weekday::Monday,
    Weekday::Tuesday,
    Weekday::Wednesday,
    Weekday::Thursday,
    Weekday::Friday,
    Weekday::Saturday,
    Weekday::Sunday,
];
