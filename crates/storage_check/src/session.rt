// The script from its first line to its last, on one book.
use super::lines::Line;
use super::memory::Touched;
use super::rig::Rig;
use super::script::{Call, Fault, Loan, Point};
use super::tally::{Tally, one_more};
use super::{answered, held, script, sheet};
use line_input::Lines;
use refusals::BookRefusal;
use std::alloc::{AllocError, Global};
use std::io;
use std::io::Write;

#[derive(Drop)]
pub struct Session<'a, W> {
    heap: Global,
    out: &'a mut W,
    line: Line,
    rig: Rig,
    tally: Tally,
}

impl<'a, W: Write> Session<'a, W> {
    pub fn new(heap: Global, out: &'a mut W) -> Result<Session<'a, W>, AllocError> {
        Ok(Session {
            heap,
            out,
            line: Line::new(heap),
            rig: Rig::new(heap)?,
            tally: Tally::default(),
        })
    }

    pub fn begin(&mut self) -> io::Result<()> {
        sheet::write_header(self.out)
    }

    pub fn finish(self) -> io::Result<()> {
        let Session {
            out,
            rig,
            tally,
            ..
        } = self;
        sheet::write_tally(&tally, out)?;
        sheet::write_end(rig.memory.untouched(), out)
    }

    fn go_through(&mut self, text: &str) -> io::Result<()> {
        let words: Vec<&str> = text.split_ascii_whitespace().collect(self.heap)?;
        match script::read(words.as_slice()) {
            Ok(None) => Ok(()),
            Ok(Some(call)) => self.perform(call),
            Err(fault) => self.pass_over(fault),
        }
    }

    fn pass_over(&mut self, fault: Fault<'_>) -> io::Result<()> {
        one_more(&mut self.tally.not_understood);
        writeln!(
            self.out,
            "\nline {:<5}  passed over: {fault}",
            self.tally.lines
        )
    }

    fn perform(&mut self, call: Call) -> io::Result<()> {
        writeln!(self.out, "\nline {:<5}  {call}", self.tally.lines)?;
        match call {
            Call::Open(point) => self.open(point),
            Call::Post(reading) => {
                let answer = self.rig.post(reading);
                self.show_hour(reading.hour, answer)
            }
            Call::Amend(reading) => {
                let answer = self.rig.amend(reading);
                self.show_hour(reading.hour, answer)
            }
            Call::Choose(subscription) => {
                let answer = self.rig.choose(subscription);
                answered::write_answer(&answer, self.out)?;
                self.settle(answer)
            }
            Call::Missing { number } => {
                let answer = self.rig.missing(number);
                answered::write_count(answer, self.out)?;
                self.settle(answer.map(|_| Touched::nothing()))
            }
            Call::Lend(loan) => self.lend(loan),
        }
    }

    fn open(&mut self, point: Point) -> io::Result<()> {
        let answer = self.rig.open(point);
        answered::write_answer(&answer, self.out)?;
        held::write_opened(&self.rig.memory, self.out)?;
        answered::write_missing(13, self.rig.missing(13), self.out)?;
        self.settle(answer)
    }

    // The record and the word of an hour, and what its month lacks.
    fn show_hour(&mut self, hour: u16, answer: Result<Touched, BookRefusal>) -> io::Result<()> {
        answered::write_answer(&answer, self.out)?;
        held::write_record(hour, &self.rig.memory, self.out)?;
        held::write_bit(hour, &self.rig.memory, self.out)?;
        match self.rig.month_of(hour) {
            Some(month) => {
                answered::write_missing(month.number, self.rig.missing(month.number), self.out)?
            }
            None => answered::write_no_month(self.out)?,
        }
        self.settle(answer)
    }

    fn lend(&mut self, loan: Loan) -> io::Result<()> {
        let answer = self.rig.lend(loan);
        if answer.is_err() {
            one_more(&mut self.tally.not_understood);
        }
        answered::write_lent(answer, self.out)
    }

    // Compares all the memory that the call may not have touched.
    fn settle(&mut self, answer: Result<Touched, BookRefusal>) -> io::Result<()> {
        let touched = match answer {
            Ok(touched) => {
                one_more(&mut self.tally.accepted);
                touched
            }
            Err(_) => {
                one_more(&mut self.tally.refused);
                Touched::nothing()
            }
        };
        let compared = self.rig.memory.others(&touched);
        self.rig.memory.follow(&touched);
        sheet::write_others(compared, self.out)
    }
}

impl<W: Write> Lines for Session<'_, W> {
    fn push(&mut self, byte: u8) -> io::Result<()> {
        self.line.push(byte)?;
        Ok(())
    }

    fn end_line(&mut self) -> io::Result<()> {
        one_more(&mut self.tally.lines);
        let line = std::mem::replace(&mut self.line, Line::new(self.heap));
        if script::is_comment(line.kept()) {
            return Ok(());
        }
        match script::text(&line) {
            Ok(text) => self.go_through(text),
            Err(fault) => self.pass_over(fault),
        }
    }
}
