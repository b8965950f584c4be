// How many lines of each kind and of each refusal there were.
use refusals::{FrameRefusal, LineRefusal, Refusal};
use service_line::Request;
use std::io;
use std::io::Write;

// A field for each row: a map would need each row's key, place and name in tables of their own.
#[derive(Clone, Copy, Default)]
pub struct Tally {
    post: u64,
    amend: u64,
    choose: u64,
    open: u64,
    advise: u64,
    invoice: u64,
    line_length: u64,
    line_digit: u64,
    frame_kind: u64,
    frame_length: u64,
    frame_check: u64,
    above: u64,
    all: u64,
}

impl Tally {
    pub fn lines(&self) -> u64 {
        self.all
    }

    pub fn count(&mut self, read: &Result<Request, Refusal>) {
        let counter = match read {
            Ok(Request::Post { .. }) => &mut self.post,
            Ok(Request::Amend { .. }) => &mut self.amend,
            Ok(Request::Choose { .. }) => &mut self.choose,
            Ok(Request::Open { .. }) => &mut self.open,
            Ok(Request::Advise) => &mut self.advise,
            Ok(Request::Invoice { .. }) => &mut self.invoice,
            Err(Refusal::Line(LineRefusal::Length)) => &mut self.line_length,
            Err(Refusal::Line(LineRefusal::Digit { .. })) => &mut self.line_digit,
            Err(Refusal::Frame(FrameRefusal::Kind { .. })) => &mut self.frame_kind,
            Err(Refusal::Frame(FrameRefusal::Length { .. })) => &mut self.frame_length,
            Err(Refusal::Frame(FrameRefusal::Check { .. })) => &mut self.frame_check,
            // No line is refused by a layer above the frame.
            Err(Refusal::Book(_) | Refusal::Tariff(_)) => &mut self.above,
        };
        *counter = counter.saturating_add(1);
        self.all = self.all.saturating_add(1);
    }

    pub fn write<W: Write>(&self, out: &mut W) -> io::Result<()> {
        writeln!(out, "\nrequests               lines")?;
        writeln!(out, "01 post           {:>10}", self.post)?;
        writeln!(out, "02 amend          {:>10}", self.amend)?;
        writeln!(out, "03 choose         {:>10}", self.choose)?;
        writeln!(out, "04 open           {:>10}", self.open)?;
        writeln!(out, "05 advise         {:>10}", self.advise)?;
        writeln!(out, "06 invoice        {:>10}", self.invoice)?;
        writeln!(out, "\nrefusals               lines")?;
        writeln!(out, "11 line length    {:>10}", self.line_length)?;
        writeln!(out, "12 line digit     {:>10}", self.line_digit)?;
        writeln!(out, "13 frame kind     {:>10}", self.frame_kind)?;
        writeln!(out, "14 frame length   {:>10}", self.frame_length)?;
        writeln!(out, "15 frame check    {:>10}", self.frame_check)?;
        writeln!(out, "\nall lines         {:>10}", self.all)
    }
}
