// The code against an independent calendar, for a spread of years.
use crate::expected::{Expected, YEARS};
use calendar::{Calendar, Month, Year};
use std::test::Fail;

fn calendar_of(row: &Expected) -> Result<Calendar, Fail> {
    let year = Year::new(row.year).ok_or_else(|| Fail::new("no year"))?;
    Ok(Calendar::new(year))
}

#[test]
fn years_and_summer_time(rt: HostRuntime) -> Result<(), Fail> {
    for row in YEARS.iter() {
        let calendar = calendar_of(row)?;
        assert_eq!(rt; calendar.hours(), row.hours);
        assert_eq!(rt; calendar.year.easter(), row.easter);
        let summer = calendar.summer_time();
        assert_eq!(rt; [summer.first, summer.end], row.summer);
    }
    Ok(())
}

#[test]
fn months(rt: HostRuntime) -> Result<(), Fail> {
    for row in YEARS.iter() {
        let calendar = calendar_of(row)?;
        // a number that is no month must fail the test, so none is left out
        for number in 1..=12 {
            let month = Month::new(number).ok_or_else(|| Fail::new("no month"))?;
            assert_eq!(rt; month.number, number);
            let hours = calendar.month_hours(month);
            let place = number as usize - 1;
            assert_eq!(rt; hours.end, row.month_ends[place]);
            assert_eq!(rt; calendar.peak_load_hours(hours), row.peak_load[place]);
            assert_eq!(rt; calendar.month_of(hours.first), Some(month));
            assert_eq!(rt; calendar.month_of(hours.end.saturating_sub(1)), Some(month));
        }
        assert_eq!(rt; calendar.month_of(row.hours), None);
    }
    Ok(())
}

#[test]
fn peak_load_hours_one_by_one(rt: HostRuntime) -> Result<(), Fail> {
    for row in YEARS.iter() {
        let calendar = calendar_of(row)?;
        let sum = (0..u16::MAX)
            .filter(|hour| calendar.is_peak_load(*hour))
            .fold(0u32, |sum, hour| sum.wrapping_add(hour as u32));
        assert_eq!(rt; sum, row.peak_load_sum);
    }
    Ok(())
}

#[test]
fn weeks(rt: HostRuntime) -> Result<(), Fail> {
    for row in YEARS.iter() {
        let calendar = calendar_of(row)?;
        assert_eq!(rt; calendar.weeks(), row.weeks);
        let mut end = 0;
        // the index is the week itself
        for week in 0..row.weeks {
            let span = calendar
                .week_hours(week)
                .ok_or_else(|| Fail::new("no week"))?;
            assert_eq!(rt; span.first, end);
            assert_eq!(rt; calendar.week_of(span.first), Some(week));
            end = span.end;
            assert_eq!(rt; end - span.first, week_length(row, week));
        }
        assert_eq!(rt; end, row.hours);
        assert!(rt; calendar.week_hours(row.weeks).is_none());
        assert_eq!(rt; calendar.week_of(row.hours), None);
    }
    Ok(())
}

// The hours of a week, by the expected numbers.
fn week_length(row: &Expected, week: u8) -> u16 {
    if week == 0 {
        row.first_week_end
    } else if week == row.weeks.saturating_sub(1) {
        row.hours.saturating_sub(row.last_week_first)
    } else if week == row.short_week {
        167
    } else if week == row.long_week {
        169
    } else {
        168
    }
}

#[test]
fn other_years_and_months(rt: HostRuntime) {
    assert!(rt; Year::new(2001).is_none());
    assert!(rt; Year::new(2300).is_none());
    assert!(rt; Month::new(0).is_none());
    assert!(rt; Month::new(13).is_none());
}
