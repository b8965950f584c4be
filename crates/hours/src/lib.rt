// A year of hours in memory that the caller lends: hour records, presence words, and the leaves that scan them.
#![tactic(auto)]

mod energy;
mod flow;
mod peak;
mod presence;
mod record;
mod scan;
#[cfg(test)]
mod tests;

pub use energy::{Energy, drawn_energy};
pub use flow::Flow;
pub use peak::highest;
pub use presence::{WORDS, clear, count_present, first_absent, is_present, mark};
pub use record::{HourRecord, RECORDS, part, write_record};
pub use scan::{Peak, Totals, part_totals};
