// The book: one point, one year, in memory that the caller lends, and the calls on it.
#![tactic(auto)]

mod account;
mod book;
mod calls;
mod checks;
mod period;
mod point;
#[cfg(test)]
mod tests;

pub use account::{Opening, Subscription};
pub use book::Book;
pub use period::Period;
pub use point::{Area, Connection};
