// The normal tariff over a year of hours, shown to be a tariff.
#![tactic(auto)]

mod making;
mod tariff_of;
#[cfg(test)]
mod tests;
mod year;

pub use year::NormalYear;
