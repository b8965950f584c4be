// The normal tariff's sheets: rows and supplements, their test, the published sheets, and the lines that a level pays.
#![tactic(auto)]

mod check;
mod checked;
mod invoice;
mod level;
mod lines;
mod published;
mod sheet;
#[cfg(test)]
mod tests;
mod used;

pub use checked::CheckedSheet;
pub use sheet::{NormalSheet, Row, Supplement};
pub use used::Used;
