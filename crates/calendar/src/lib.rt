// The calendar of a year: its hours, months, weeks, Easter and peak-load hours, for the years 2002 to 2299.
#![tactic(auto)]

mod calendar;
mod clock;
mod date;
mod dates;
mod day;
mod days;
mod easter;
mod hour;
mod hours;
mod making;
mod month;
mod months;
mod peak_load;
mod span;
mod weeks;
mod year;

pub use calendar::Calendar;
pub use date::{Date, Weekday};
pub use days::year_hours;
pub use month::Month;
pub use span::Span;
pub use year::Year;
