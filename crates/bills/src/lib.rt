// What both tariffs share of a year's bill: the twelfths of yearly amounts, lines 1 to 4, and what the months come to.
#![tactic(auto)]

mod energy;
mod months;
mod ranges;
mod share;
mod standing;
#[cfg(test)]
mod tests;
mod year;

pub use energy::energy_amount;
pub use months::totals_of_month;
pub use ranges::{cap_fits, fee_fits, percentage_fits, price_fits, rate_fits};
pub use share::{month_share, twelfth};
pub use standing::{Extras, StandingRates, Subscribed, rated};
pub use year::{MonthTotals, YearTotals};
