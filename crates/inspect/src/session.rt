// The lines of one input, one after the other.
use super::row;
use super::tally::Tally;
use line_input::Lines;
use service_line::Received;
use std::io;
use std::io::Write;

#[derive(Drop)]
pub struct Session<'a, W> {
    out: &'a mut W,
    line: Received,
    // How many bytes of the line have come in.
    bytes: u64,
    tally: Tally,
}

impl<'a, W: Write> Session<'a, W> {
    pub fn new(out: &'a mut W) -> Session<'a, W> {
        Session {
            out,
            line: Received::new(),
            bytes: 0,
            tally: Tally::default(),
        }
    }

    pub fn finish(self) -> io::Result<()> {
        let Session { out, tally, .. } = self;
        tally.write(out)
    }
}

impl<W: Write> Lines for Session<'_, W> {
    fn push(&mut self, byte: u8) -> io::Result<()> {
        self.line.push(byte);
        self.bytes = self.bytes.saturating_add(1);
        Ok(())
    }

    fn end_line(&mut self) -> io::Result<()> {
        let read = self.line.read();
        self.tally.count(&read);
        row::write_line(
            self.tally.lines(),
            self.bytes,
            self.line.front(),
            &read,
            self.out,
        )?;
        self.line = Received::new();
        self.bytes = 0;
        Ok(())
    }
}
