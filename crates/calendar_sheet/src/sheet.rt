// The sheet of a year, as it hangs on the wall.
use calendar::{Calendar, Month, Span, Year};
use std::{fmt, io};

// The days off, in the calendar's order: it gives the days in a row, and each name has its place in it.
const DAYS_OFF: [&str; 9] = [
    "New Year's Day",
    "Epiphany",
    "Maundy Thursday",
    "Good Friday",
    "Easter Monday",
    "Christmas Eve",
    "Christmas Day",
    "Second Day of Christmas",
    "New Year's Eve",
];

#[derive(Drop)]
pub(crate) struct Sheet<'a> {
    rt: &'a HostRuntime,
    calendar: Calendar,
}

impl<'a> Sheet<'a> {
    pub(crate) fn new(rt: &'a HostRuntime, year: Year) -> Sheet<'a> {
        Sheet {
            rt,
            calendar: Calendar::new(year),
        }
    }

    pub(crate) fn print(&self) -> io::Result<()> {
        self.print_head()?;
        self.print_days_off()?;
        self.print_months()?;
        self.print_weeks()
    }

    fn print_head(&self) -> io::Result<()> {
        let year = self.calendar.year.number;
        let hours = self.calendar.hours();
        let days = hours / 24;
        let weeks = self.calendar.weeks();
        println!(self.rt; "Calendar {year}: {hours} hours, {days} days, {weeks} weeks\n")?;
        let Span { first, end } = self.calendar.summer_time();
        println!(self.rt; "Summer time begins with hour {first} and ends before hour {end}.")?;
        self.print_day("  begins", first / 24)?;
        self.print_day("  ends", end / 24)?;
        self.print_day("Easter Sunday", self.calendar.easter_sunday())
    }

    fn print_days_off(&self) -> io::Result<()> {
        println!(self.rt; "\nDays that do not count")?;
        for (name, day) in DAYS_OFF.iter().zip(self.calendar.days_off()) {
            self.print_day(name, day)?;
        }
        Ok(())
    }

    fn print_day(&self, name: &str, day: u16) -> io::Result<()> {
        let Some(date) = self.calendar.date(day) else {
            return Ok(());
        };
        println!(self.rt;
            "{name:<25}{:<11}{:>2} {}",
            date.weekday, date.day, date.month
        )
    }

    fn print_months(&self) -> io::Result<()> {
        println!(self.rt;
            "\n{:<11}{:>11}{:>8}{:>18}",
            "Month", "first hour", "hours", "peak-load hours"
        )?;
        for month in (1..=12).filter_map(Month::new) {
            self.print_span(&month, self.calendar.month_hours(month))?;
        }
        let year = Span {
            first: 0,
            end: self.calendar.hours(),
        };
        self.print_span(&"Year", year)
    }

    fn print_span(&self, name: &impl fmt::Display, span: Span) -> io::Result<()> {
        let first = span.first;
        let hours = span.end - span.first;
        let peak_load = self.calendar.peak_load_hours(span);
        println!(self.rt; "{name:<11}{first:>11}{hours:>8}{peak_load:>18}")
    }

    // The weeks that are no full 168 hours, counted from 1.
    fn print_weeks(&self) -> io::Result<()> {
        println!(self.rt; "\n{:<11}{:>11}{:>8}", "Week", "first hour", "hours")?;
        // the index is the week itself, so a plain range is the list of the weeks
        for week in 0..self.calendar.weeks() {
            if let Some(span) = self.calendar.week_hours(week) {
                let number = week + 1;
                let first = span.first;
                let hours = span.end - span.first;
                if hours != 168 {
                    println!(self.rt; "{number:<11}{first:>11}{hours:>8}")?;
                }
            }
        }
        println!(self.rt; "All other weeks have 168 hours.\n")
    }
}
