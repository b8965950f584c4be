// The test of a sheet: every row of it, offered or not.
ghost use Rattle.std.specs.Prelude.{◌≡◌, Bool};
ghost use Rattle.std.specs.Fn.{FnReturnsAt};
ghost use Rattle.bills.specs.Ranges.{first_failing};
ghost use Rattle.normal_sheet.specs.declared.sheet.Row.{Row};
ghost use Rattle.normal_sheet.specs.Ranges.{percentages_fit, prices_fit, sheet_answer, supplement_fits};

use crate::sheet::{NormalSheet, Row, Supplement};
use bills::{fee_fits, percentage_fits, price_fits, rate_fits};
use refusals::TariffRefusal;

impl Row {
    fn prices_fit(&self) -> bool
        ensures fit { result ≡ prices_fit self.now }
    {
        self.standing.fit()
            && price_fits(self.peak_load_price)
            && price_fits(self.other_price)
            && rate_fits(self.active_excess_rate)
            && rate_fits(self.reactive_excess_rate)
    }

    fn percentages_fit(&self) -> bool
        ensures fit { result ≡ percentages_fit self.now }
    {
        percentage_fits(self.free_withdrawal) && percentage_fits(self.free_input)
    }
}

impl Supplement {
    fn fits(&self) -> bool
        ensures fits { result ≡ supplement_fits self.now }
    {
        fee_fits(self.fixed_fee) && rate_fits(self.power_rate)
    }
}

// The number of the first row that fails a test.
fn first_failing<F: Fn(&Row) -> bool>(rows: &[Row; 7], fits: F) -> Option<u8>
    requires { F.IsAlwaysCallable fits }
    ensures first { (test : Row → Bool) → ((row : Row) (fit : Bool) → FnReturnsAt F.Fn fits row fit → fit ≡ test row) → result ≡ first_failing test 0 rows.now }
{
    let place = rows.iter().position(|row| !fits(row));
    place.map(|place| place as u8)
}

impl NormalSheet {
    pub fn check(&self) -> Result<(), TariffRefusal>
        ensures answer { result ≡ sheet_answer self.now }
    {
        if let Some(row) = first_failing(&self.rows, Row::prices_fit) {
            return Err(TariffRefusal::OutOfRange { row });
        }
        if !self.supplements.iter().all(Supplement::fits) {
            return Err(TariffRefusal::OutOfRange { row: 7 });
        }
        match first_failing(&self.rows, Row::percentages_fit) {
            Some(row) => Err(TariffRefusal::Percentage { row }),
            None => Ok(()),
        }
    }
}
