// A year of hours at a connection, priced by a normal sheet.
ghost use Rattle.std.specs.Prelude.{◌≡◌, ◌<◌, true};
ghost use Rattle.hours.specs.declared.scan.Peak.TheVariants.{Drawn, ReactiveDrawn, ReactiveFedIn};
ghost use Rattle.bills.specs.Months.{month_in, total_to};
ghost use Rattle.normal_sheet.specs.Lines.{two_highest};
ghost use Rattle.normal_tariff.specs.Meaning.{permitted_to};

use bills::{Extras, YearTotals};
use book::Connection;
use hours::Energy;
use normal_sheet::{CheckedSheet, Used};

// What the months come to, and what the year comes to beside it, so that a charge need not go through the months.
#[derive(Clone, Copy)]
pub struct NormalYear {
    pub(crate) sheet: CheckedSheet,
    pub(crate) connection: Connection,
    // a choice that is permitted, by its number
    pub(crate) level: u8,
    pub(crate) extras: Extras,
    pub(crate) months: YearTotals,
    pub(crate) used: Used,
    pub(crate) energy: Energy,
    ghost offered: { permitted_to sheet.sheet connection level ≡ true },
    ghost choice: { level < 9 },
    ghost bits: { (extras.withdrawal < 65536) × (extras.input < 65536) },
    ghost drawn: { used.drawn ≡ two_highest Drawn (month_in months.months) },
    ghost reactive_drawn: { used.reactive_drawn ≡ two_highest ReactiveDrawn (month_in months.months) },
    ghost reactive_fed_in: { used.reactive_fed_in ≡ two_highest ReactiveFedIn (month_in months.months) },
    ghost peak_load: { energy.peak_load ≡ total_to 12 (λ m. (month_in months.months m).peak_load_kwh) },
    ghost other: { energy.other ≡ total_to 12 (λ m. (month_in months.months m).other_kwh) },
}
