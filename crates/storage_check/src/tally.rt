// How many lines there were, and what became of them.
#[derive(Clone, Copy, Default)]
pub struct Tally {
    pub lines: u64,
    pub accepted: u64,
    pub refused: u64,
    pub not_understood: u64,
}

pub fn one_more(counter: &mut u64) {
    *counter = counter.saturating_add(1);
}
