// Lines, levels and the test of a sheet, worked by hand from the sheets of 2022.
use super::{CheckedSheet, NormalSheet, Row, Used};
use bills::{Extras, Subscribed, YearTotals};
use book::Area;
use calendar::{Calendar, Month, Year};
use hours::HourRecord;
use refusals::TariffRefusal;
use std::test::Fail;

// 1,000 kW with extras that divide by 12.
#[cfg(test)]
fn subscribed(withdrawal: u16, input: u16) -> Subscribed {
    Subscribed {
        kw: 1_000,
        extras: Extras { withdrawal, input },
    }
}

// January and May: the peaks 1,001 and 1,000, reactive 300 and 300 drawn, 250 and 350 fed in. Hour 54 is a peak-load hour.
#[cfg(test)]
fn write_two_months(records: &mut [HourRecord]) {
    for (hour, active, reactive) in [
        (54, 10, 0),
        (100, 1_001, 300),
        (101, 0, -250),
        (3_000, 1_000, 300),
        (3_001, 0, -350),
    ] {
        if let Some(record) = records.get_mut(hour) {
            *record = HourRecord { active, reactive };
        }
    }
}

// L1 of Norrbotten: SEK 400,000, SEK 106 for each kW, 3.2 and -1.7 öre for each kWh, SEK 20 for each kVAr, 15 and 5 percent
// free.
#[test]
fn lines_of_a_level(rt: HostRuntime) -> Result<(), Fail> {
    let (Some(year), Some(january)) = (Year::new(2022), Month::new(1)) else {
        return Err(Fail::new("2022 has a January"));
    };
    let calendar = Calendar::new(year);
    let empty = HourRecord {
        active: 0,
        reactive: 0,
    };
    let mut records = vec![in rt.alloc(); empty; 8784]?;
    write_two_months(records.as_mut_slice());
    let months = YearTotals::new(records.as_slice(), &calendar);
    let used = Used::of(&months);
    assert_eq!(rt;
        (used.drawn, used.reactive_drawn, used.reactive_fed_in),
        (2_001, 600, 600)
    );
    let level = NormalSheet::published_2022(Area::Norrbotten).rows[0];
    let totals = months.month(january);
    assert_eq!(rt; level.line_5(&totals), 3_200);
    assert_eq!(rt; level.line_6(&totals), -170_170);
    let lines = level.month_lines(subscribed(12, 24), &totals, january);
    assert_eq!(rt;
        &lines[2..],
        [200_000, 400_000, 3_200, -170_170, 0, 0, 0].as_slice()
    );
    let extras = subscribed(12, 24).extras;
    assert_eq!(rt;
        level.month_line(extras, 1_000, &totals, january, 3),
        200_000
    );
    assert_eq!(rt;
        level.month_line(extras, 1_000, &totals, january, 6),
        -170_170
    );
    assert_eq!(rt; level.month_line(extras, 1_000, &totals, january, 10), 0);
    assert!(rt; lines[0] == 333_333_333 || lines[0] == 333_333_334);
    assert!(rt; lines[1] == 88_333_333 || lines[1] == 88_333_334);
    assert_eq!(rt; level.line_7(&used, 1_000), 1_060_000);
    assert_eq!(rt; level.line_8(subscribed(0, 0), &used), 60_000_000);
    assert_eq!(rt; level.line_8(subscribed(150, 0), &used), 0);
    assert_eq!(rt; level.line_9(subscribed(0, 100), &used), 60_000_000);
    let closing = level.closing_lines(subscribed(0, 100), &used);
    assert_eq!(rt;
        closing,
        [0, 0, 0, 0, 0, 0, 1_060_000, 60_000_000, 60_000_000]
    );
    let extras = subscribed(0, 100).extras;
    assert_eq!(rt; level.closing_line(extras, 1_000, &used, 7), 1_060_000);
    assert_eq!(rt; level.closing_line(extras, 1_000, &used, 9), 60_000_000);
    assert_eq!(rt; level.closing_line(extras, 1_000, &used, 6), 0);
    let dearer = Row {
        active_excess_rate: 50_000,
        ..level
    };
    assert_eq!(rt; dearer.line_7(&used, 1_000), 2_500_000);
    Ok(())
}

#[test]
fn levels_of_a_sheet(rt: HostRuntime) -> Result<(), Fail> {
    let published = NormalSheet::published_2022(Area::Southern);
    let row_x = published.rows[6];
    let Ok(southern) = CheckedSheet::new(published) else {
        return Err(Fail::new("the Southern sheet is in order"));
    };
    let Ok(norrbotten) = CheckedSheet::new(NormalSheet::published_2022(Area::Norrbotten)) else {
        return Err(Fail::new("the sheet of Norrbotten is in order"));
    };
    let t1 = southern.level(7);
    assert_eq!(rt;
        (t1.standing.fixed_fee, t1.standing.power_rate),
        (220_000_000, 13_200)
    );
    assert_eq!(rt;
        (t1.standing.extra_rate, t1.active_excess_rate),
        (3_000, 24_200)
    );
    let t12 = southern.level(8);
    assert_eq!(rt;
        (t12.standing.fixed_fee, t12.standing.power_rate),
        (260_000_000, 16_300)
    );
    assert_eq!(rt; southern.level(6), row_x);
    assert_eq!(rt; southern.level(9), Row::default());
    assert!(rt; southern.level(5).offered && !norrbotten.level(5).offered);
    Ok(())
}

// Each number one past its range, and in the row that Norrbotten does not offer too.
#[test]
fn numbers_past_their_ranges(rt: HostRuntime) {
    let published = NormalSheet::published_2022(Area::Norrbotten);
    assert_eq!(rt; published.check(), Ok(()));
    assert_eq!(rt;
        NormalSheet::published_2022(Area::MiddleNorrland).check(),
        Ok(())
    );
    assert_eq!(rt; NormalSheet::published_2022(Area::Southern).check(), Ok(()));
    let mut fee = published;
    fee.rows[0].standing.fixed_fee = 1_000_000_001;
    assert_eq!(rt; fee.check(), Err(TariffRefusal::OutOfRange { row: 0 }));
    let mut power = published;
    power.rows[1].standing.power_rate = 1_000_001;
    assert_eq!(rt; power.check(), Err(TariffRefusal::OutOfRange { row: 1 }));
    let mut extra = published;
    extra.rows[2].standing.extra_rate = 1_000_001;
    assert_eq!(rt; extra.check(), Err(TariffRefusal::OutOfRange { row: 2 }));
    let mut high = published;
    high.rows[3].peak_load_price = 100_001;
    assert_eq!(rt; high.check(), Err(TariffRefusal::OutOfRange { row: 3 }));
    let mut low = published;
    low.rows[4].other_price = -100_001;
    assert_eq!(rt; low.check(), Err(TariffRefusal::OutOfRange { row: 4 }));
    let mut active = published;
    active.rows[5].active_excess_rate = 1_000_001;
    assert_eq!(rt; active.check(), Err(TariffRefusal::OutOfRange { row: 5 }));
    let mut reactive = published;
    reactive.rows[6].reactive_excess_rate = 1_000_001;
    assert_eq!(rt; reactive.check(), Err(TariffRefusal::OutOfRange { row: 6 }));
}

// The supplements have the place 7, and all prices are tested before the percentages.
#[test]
fn supplements_and_percentages(rt: HostRuntime) {
    let published = NormalSheet::published_2022(Area::Southern);
    let mut first = published;
    first.supplements[0].fixed_fee = 1_000_000_001;
    assert_eq!(rt; first.check(), Err(TariffRefusal::OutOfRange { row: 7 }));
    let mut second = published;
    second.supplements[1].power_rate = 1_000_001;
    assert_eq!(rt; second.check(), Err(TariffRefusal::OutOfRange { row: 7 }));
    let mut uneven = published;
    uneven.rows[2].free_withdrawal = 12;
    assert_eq!(rt; uneven.check(), Err(TariffRefusal::Percentage { row: 2 }));
    let mut over = published;
    over.rows[3].free_input = 105;
    assert_eq!(rt; over.check(), Err(TariffRefusal::Percentage { row: 3 }));
    second.rows[0].free_input = 105;
    assert_eq!(rt; second.check(), Err(TariffRefusal::OutOfRange { row: 7 }));
    over.rows[6].peak_load_price = 100_001;
    assert_eq!(rt; over.check(), Err(TariffRefusal::OutOfRange { row: 6 }));
}
