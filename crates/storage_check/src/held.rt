// The rows of the memory: what stands there before and after a call.
use super::memory::Memory;
use super::store::Change;
use hours::WORDS;
use std::io;
use std::io::Write;

// The record of an hour, before and after.
pub fn write_record<W: Write>(hour: u16, memory: &Memory, out: &mut W) -> io::Result<()> {
    write!(out, "  record  {hour:>5}          ")?;
    let Some(Change { before, after }) = memory.records.at(usize::from(hour)) else {
        return writeln!(out, "past the memory");
    };
    write!(out, "before  {:>7} {:>8}", before.active, before.reactive)?;
    writeln!(out, "   after  {:>7} {:>8}", after.active, after.reactive)
}

// The word of an hour, before and after, and the hour's bit in it.
pub fn write_bit<W: Write>(hour: u16, memory: &Memory, out: &mut W) -> io::Result<()> {
    write!(out, "  word    {:>5}  bit {:>2}  ", hour / 64, hour % 64)?;
    write_word(memory.words.at(usize::from(hour / 64)), out)
}

fn write_word<W: Write>(word: Option<Change<u64>>, out: &mut W) -> io::Result<()> {
    match word {
        Some(Change { before, after }) => {
            writeln!(out, "before  {before:016X}   after  {after:016X}")
        }
        None => writeln!(out, "past the memory"),
    }
}

// The first word and the last that a year has, the one behind them, and how many of all are zero.
pub fn write_opened<W: Write>(memory: &Memory, out: &mut W) -> io::Result<()> {
    for i in [0, WORDS - 1, WORDS] {
        write!(out, "  word    {i:>5}          ")?;
        write_word(memory.words.at(i), out)?;
    }
    let Change { before, after } = memory.words.count(0);
    writeln!(
        out,
        "  zero words             before  {before:>16}   after  {after:>16}"
    )
}
