// What a tariff means, and advice over every tariff.
#![tactic(auto)]

mod advice;
mod meaning;
mod search;

pub use advice::{Advice, advise};
pub use meaning::Tariff;
