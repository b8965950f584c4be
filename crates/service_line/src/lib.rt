// The service line: one frame to a line, in hexadecimal; what a line asks, and what is answered.
#![tactic(auto)]

mod answer;
mod frame;
mod hex;
mod line;
mod read;
mod received;
mod request;
#[cfg(test)]
mod tests;
mod write;

pub use answer::Answer;
pub use read::read_line;
pub use received::Received;
pub use request::Request;
pub use write::{LineBuffer, write_answer, write_request};
