// The line that is coming in: as much of it as tells what it is.
use std::alloc::{AllocError, Global};

// No call needs a longer line.
pub const LONGEST: usize = 200;

// At most one byte more than that is kept, which shows that the line is longer.
#[derive(Drop)]
pub struct Line {
    kept: Vec<u8>,
}

impl Line {
    pub fn new(heap: Global) -> Line {
        Line {
            kept: Vec::new(heap),
        }
    }

    pub fn push(&mut self, byte: u8) -> Result<(), AllocError> {
        if !self.is_long() {
            self.kept.push(byte)?;
        }
        Ok(())
    }

    pub fn kept(&self) -> &[u8] {
        self.kept.as_slice()
    }

    pub fn is_long(&self) -> bool {
        self.kept.len() > LONGEST
    }
}
