// How a year is made from the lent hours.
ghost use Rattle.std.specs.Prelude.{◌≡◌, ℕ, ◌≤◌, false, ◌&&◌, map, Some, None, nat_lt};
ghost use Rattle.hours.specs.Values.{limited};
ghost use Rattle.bills.specs.Months.{month_in, month_totals};
ghost use Rattle.normal_tariff.specs.Meaning.{amount_of, normal_amount, on_normal, permitted_to};

use crate::year::NormalYear;
use bills::{Extras, YearTotals};
use book::Connection;
use calendar::Calendar;
use hours::HourRecord;
use normal_sheet::{CheckedSheet, Used};

fn is_on_normal(connection: Connection) -> bool
    ensures on { result ≡ on_normal connection }
{
    !matches!(connection, Connection::L110In | Connection::L33In)
}

// Whether the choice is open to the connection and offered.
pub(crate) fn is_permitted(sheet: &CheckedSheet, connection: Connection, choice: u8) -> bool
    ensures permitted { result ≡ permitted_to sheet.now.sheet connection choice }
{
    is_on_normal(connection) && connection.is_open(choice) && sheet.level(choice).offered
}

impl NormalYear {
    // The year, if the level, a choice by its number, is permitted: the hours are gone through once.
    pub fn new(
        sheet: CheckedSheet,
        connection: Connection,
        level: u8,
        extras: Extras,
        records: &[HourRecord],
        calendar: &Calendar,
    ) -> Option<NormalYear>
        ensures made { elim result [ Some t ↦ (t.sheet.sheet ≡ sheet.sheet) × (t.connection ≡ connection) × (t.extras ≡ extras) | None ↦ (nat_lt level 9 && permitted_to sheet.sheet connection level) ≡ false ] }
        ensures months { elim result [ Some t ↦ ((m : ℕ) → 1 ≤ m → m ≤ 12 → month_in t.months.months m ≡ month_totals calendar.now.year.number (map limited records.now) m) | None ↦ Unit {0} ] }
        ensures amounts { elim result [ Some t ↦ ((c s i l : ℕ) → 1 ≤ i → amount_of t.sheet.sheet t.extras (month_in t.months.months) c s i l ≡ normal_amount sheet.sheet extras calendar.now.year.number (map limited records.now) c s i l) | None ↦ Unit {0} ] }
    {
        if level >= 9 || !is_permitted(&sheet, connection, level) {
            return None;
        }
        let months = YearTotals::new(records, calendar);
        Some(NormalYear {
            sheet,
            connection,
            level,
            extras,
            months,
            used: Used::of(&months),
            energy: months.energy(),
        })
    }
}
