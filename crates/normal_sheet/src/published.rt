// The sheets of 2022 for the three areas.
ghost use Rattle.std.specs.Prelude.{◌≡◌, ◌≤◌, pos, neg_ℤ, ◌≤ℤ◌};
ghost use Rattle.normal_sheet.specs.Published.{row_of, rows_of, sheet_2022};

use crate::sheet::{NormalSheet, Row, Supplement};
use bills::StandingRates;
use book::Area;

// A row as it is published: fixed fee in thousands of SEK, power in SEK for each kW, energy in tenths of an öre for each
// kWh, the extra rate in SEK for each kVAr, and what is free in percent. An excess costs twice the rate.
fn row(fixed: u32, power: u32, peak_load: i32, other: i32, kvar: u32, free: (u8, u8)) -> Row
    requires fees { (fixed ≤ 10000) × ((power ≤ 10000) × (kvar ≤ 10000)) }
    requires prices { (neg_ℤ (pos 1000) ≤ℤ peak_load) × ((peak_load ≤ℤ pos 1000) × ((neg_ℤ (pos 1000) ≤ℤ other) × (other ≤ℤ pos 1000))) }
    ensures row { result ≡ row_of fixed power peak_load other kvar free.0 free.1 }
{
    Row {
        offered: true,
        standing: StandingRates {
            fixed_fee: 100_000 * fixed,
            power_rate: 100 * power,
            extra_rate: 100 * kvar,
        },
        peak_load_price: 10 * peak_load,
        other_price: 10 * other,
        active_excess_rate: 200 * power,
        reactive_excess_rate: 200 * kvar,
        free_withdrawal: free.0,
        free_input: free.1,
    }
}

fn rows(area: Area) -> [Row; 7]
    ensures rows { result ≡ rows_of area }
{
    match area {
        Area::Norrbotten => [
            row(400, 106, 32, -17, 20, (15, 5)),
            row(1300, 121, 34, -13, 30, (25, 10)),
            row(100, 250, 45, -5, 30, (50, 15)),
            row(400, 265, 52, 2, 35, (50, 15)),
            row(1300, 121, 34, -13, 30, (25, 10)),
            Row::default(),
            row(25, 265, 98, 50, 35, (50, 15)),
        ],
        Area::MiddleNorrland => [
            row(400, 106, 55, -10, 20, (15, 5)),
            row(1300, 121, 57, -6, 30, (25, 10)),
            row(100, 250, 68, 2, 30, (50, 15)),
            row(400, 265, 75, 9, 35, (50, 15)),
            row(1300, 121, 57, -6, 30, (25, 10)),
            row(1600, 73, 16, -16, 20, (15, 5)),
            row(25, 265, 121, 57, 35, (50, 15)),
        ],
        Area::Southern => [
            row(400, 106, 90, 20, 20, (15, 5)),
            row(1300, 121, 92, 24, 30, (25, 10)),
            row(100, 250, 103, 32, 30, (50, 15)),
            row(400, 265, 110, 39, 35, (50, 15)),
            row(1300, 121, 92, 24, 30, (25, 10)),
            row(1600, 78, 49, 14, 20, (15, 5)),
            row(25, 265, 156, 87, 35, (50, 15)),
        ],
    }
}

impl NormalSheet {
    pub fn published_2022(area: Area) -> NormalSheet
        ensures sheet { result ≡ sheet_2022 area }
    {
        NormalSheet {
            area: u8::from(area),
            rows: rows(area),
            supplements: [
                Supplement {
                    fixed_fee: 90_000_000,
                    power_rate: 1_100,
                },
                Supplement {
                    fixed_fee: 130_000_000,
                    power_rate: 4_200,
                },
            ],
        }
    }
}
