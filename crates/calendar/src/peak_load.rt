// Peak-load hours.
ghost use Rattle.std.specs.Prelude.{◌≡◌, ◌-◌};
ghost use Rattle.calendar.specs.Hours.{month_of};
ghost use Rattle.calendar.specs.PeakLoad.{daytime, winter, days_off_of, among, counts, peak_load, peak_load_hours};

use crate::calendar::Calendar;
use crate::day::DayOfYear;
use crate::hour::HourOfYear;
use crate::span::Span;

impl Calendar {
    // Whether the hour is a peak-load hour; false past the year's last hour.
    #[tactic(auto, unfolding(crate::specs::PeakLoad::peak_load))]
    pub fn is_peak_load(&self, hour: u16) -> bool
        ensures peak_load { result ≡ peak_load self.now.year.number hour }
    {
        HourOfYear::new(self, hour).is_some_and(|hour| hour.is_peak_load())
    }

    // How many hours of a span are peak-load hours.
    pub fn peak_load_hours(&self, span: Span) -> u16
        ensures count { result ≡ peak_load_hours self.now.year.number span.first (span.end - span.first) }
    {
        (span.first..span.end)
            .map(|hour| u16::from(self.is_peak_load(hour)))
            .sum()
    }
}

impl HourOfYear<'_> {
    #[tactic(auto, unfolding(crate::specs::PeakLoad::peak_load))]
    fn is_peak_load(self) -> bool
        ensures peak_load { result ≡ peak_load self.entry.calendar.now.year.number self.entry.number }
    {
        is_daytime(self.time()) && self.is_winter() && self.day().counts()
    }

    fn is_winter(self) -> bool
        ensures winter { result ≡ winter (month_of self.entry.calendar.now.year.number self.entry.number) }
    {
        let ends = &self.calendar.month_ends;
        !(ends[3]..ends[10]).contains(&self.number)
    }
}

impl DayOfYear<'_> {
    // Monday to Friday, and no day off.
    #[tactic(auto, unfolding(crate::specs::Days::weekday, crate::specs::PeakLoad::counts))]
    fn counts(self) -> bool
        ensures counts { result ≡ counts self.entry.calendar.now.year.number self.entry.number }
    {
        (self.calendar.first_weekday + self.number) % 7 < 5 && !self.is_day_off()
    }

    fn is_day_off(self) -> bool
        ensures off { result ≡ among self.entry.number (days_off_of self.entry.calendar.now.year.number) }
    {
        self.calendar.days_off.contains(&self.number)
    }
}

fn is_daytime(time: u16) -> bool
    ensures daytime { result ≡ daytime time }
{
    (6..=21).contains(&time)
}
