// The weeks of a year, numbered from 0.
ghost use Rattle.std.specs.Prelude.{◌≡◌, ◌<◌, ◌≤◌, nat_lt};
ghost use Rattle.std.specs.Option.{option_map};
ghost use Rattle.calendar.specs.Hours.{year_hours};
ghost use Rattle.calendar.specs.Weeks.{week_of, weeks, monday, week_first, week_end};
ghost use Rattle.calendar.specs.Years.{provided};

use crate::calendar::Calendar;
use crate::hour::HourOfYear;
use crate::span::Span;

impl Calendar {
    pub fn weeks(&self) -> u8
        ensures weeks { result ≡ weeks self.now.year.number }
        ensures at_most { result ≤ 54 }
    {
        self.week_count
    }

    // The week of an hour by the clock; none past the year's last hour.
    pub fn week_of(&self, hour: u16) -> Option<u8>
        ensures week { let y = self.now.year.number in result ≡ provided (nat_lt hour (year_hours y)) (week_of y hour) }
    {
        HourOfYear::new(self, hour).map(|hour| hour.week())
    }

    // The hours of a week; none past the year's last week.
    pub fn week_hours(&self, week: u8) -> Option<Span>
        ensures first { let y = self.now.year.number in option_map (λ s. s.first) result ≡ provided (nat_lt week (weeks y)) (week_first y week) }
        ensures end { let y = self.now.year.number in option_map (λ s. s.end) result ≡ provided (nat_lt week (weeks y)) (week_end y week) }
    {
        (week < self.weeks()).then(|| self.span_of_week(week))
    }

    fn span_of_week(&self, week: u8) -> Span
        requires { week < weeks self.now.year.number }
        ensures first { result.first ≡ week_first self.now.year.number week }
        ensures end { result.end ≡ week_end self.now.year.number week }
    {
        let first = self.midnight(self.monday(week as u16));
        let end = self.midnight(self.monday(week as u16 + 1).min(self.days()));
        Span { first, end }
    }

    // The day that a week begins with.
    fn monday(&self, week: u16) -> u16
        requires { week ≤ 54 }
        ensures monday { result ≡ monday self.now.year.number week }
    {
        (7 * week).saturating_sub(self.first_weekday)
    }
}

impl HourOfYear<'_> {
    #[tactic(auto, unfolding(crate::specs::Weeks::week_of))]
    fn week(self) -> u8
        ensures week { result ≡ week_of self.entry.calendar.now.year.number self.entry.number }
    {
        ((self.calendar.first_weekday + self.day().number) / 7) as u8
    }
}
