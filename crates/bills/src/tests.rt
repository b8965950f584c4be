// Yearly amounts in twelve parts, lines 1 to 4 and the months of a year, worked by hand; which part of a yearly amount bears
// an odd hundredth is undecided.
use super::{Extras, StandingRates, Subscribed, YearTotals, energy_amount, month_share, twelfth};
use calendar::{Calendar, Month, Year};
use hours::{HourRecord, Peak};
use std::test::Fail;

#[cfg(test)]
fn share_of(amount: u64, number: u8) -> u64 {
    match Month::new(number) {
        Some(month) => month_share(amount, month),
        None => 0,
    }
}

#[test]
fn twelve_shares_add_up_and_lie_beside_the_twelfth(rt: HostRuntime) {
    assert_eq!(rt; twelfth(100), (8, 4));
    assert_eq!(rt; twelfth(11), (0, 11));
    assert_eq!(rt; twelfth(24), (2, 0));
    assert_eq!(rt; twelfth(u64::MAX), (1_537_228_672_809_129_301, 3));
    let mut sum: u64 = 0;
    for number in 1..13 {
        let share = share_of(100, number);
        assert!(rt; share == 8 || share == 9);
        assert_eq!(rt; share_of(24, number), 2);
        sum = sum.saturating_add(share);
    }
    assert_eq!(rt; sum, 100);
}

// SEK 100,000 a year, SEK 250 for each kW, SEK 30 for each kVAr, at 1,000 kW with 7 and 9 kVAr of extras. A month's lines 5
// and 6 are the ones passed, and it has none beyond.
#[test]
fn yearly_amounts(rt: HostRuntime) -> Result<(), Fail> {
    let rates = StandingRates {
        fixed_fee: 10_000_000,
        power_rate: 25_000,
        extra_rate: 3_000,
    };
    let extras = Extras {
        withdrawal: 7,
        input: 9,
    };
    assert_eq!(rt; rates.yearly(extras, 1_000, 1), 1_000_000_000);
    assert_eq!(rt; rates.yearly(extras, 1_000, 2), 2_500_000_000);
    assert_eq!(rt; rates.yearly(extras, 1_000, 3), 2_100_000);
    assert_eq!(rt; rates.yearly(extras, 1_000, 4), 2_700_000);
    assert_eq!(rt; rates.yearly(extras, 1_000, 5), 0);
    let subscribed = Subscribed { kw: 1_000, extras };
    assert_eq!(rt;
        rates.yearly_amounts(subscribed),
        [1_000_000_000, 2_500_000_000, 2_100_000, 2_700_000]
    );
    let Some(month) = Month::new(1) else {
        return Err(Fail::new("1 is a month"));
    };
    let lines = rates.month_lines(subscribed, month, -170, 1_700);
    assert_eq!(rt; lines[4], -170);
    assert_eq!(rt; lines[5], 1_700);
    assert_eq!(rt; lines[6], 0);
    assert_eq!(rt; lines[7], 0);
    assert_eq!(rt; lines[8], 0);
    assert_eq!(rt;
        rates.month_line(extras, 1_000, month, -170, 1_700, 3),
        175_000
    );
    assert_eq!(rt;
        rates.month_line(extras, 1_000, month, -170, 1_700, 5),
        -170
    );
    assert_eq!(rt; rates.month_line(extras, 1_000, month, -170, 1_700, 7), 0);
    assert_eq!(rt; energy_amount(10, -170), -1_700);
    assert_eq!(rt;
        energy_amount(u32::MAX, i32::MIN),
        -9_223_372_034_707_292_160
    );
    Ok(())
}

// The two highest hours of the year lie in January, 900 and 800; the two highest months are January with 900 and May with
// 500. Hours 100 and 101 are no peak-load hours, hour 3,000 lies in May.
#[test]
fn the_two_highest_come_from_different_months(rt: HostRuntime) -> Result<(), Fail> {
    let Some(year) = Year::new(2022) else {
        return Err(Fail::new("2022 is served"));
    };
    let empty = HourRecord {
        active: 0,
        reactive: 0,
    };
    let mut records = vec![in rt.alloc(); empty; 8784]?;
    assert!(rt; records.len() == 8784);
    records[100].active = 900;
    records[101].active = 800;
    records[3000].active = 500;
    records[3001].reactive = -40;
    let months = YearTotals::new(records.as_slice(), &Calendar::new(year));
    assert_eq!(rt; months.two_highest(Peak::Drawn), 1_400);
    assert_eq!(rt; months.two_highest(Peak::ReactiveFedIn), 40);
    assert_eq!(rt; months.sum_of(Peak::Drawn), 1_400);
    assert_eq!(rt; months.energy().peak_load, 0);
    assert_eq!(rt; months.energy().other, 2_200);
    Ok(())
}
