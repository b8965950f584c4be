// The first rows and the last, and those of what was compared.
use super::memory;
use super::memory::Compared;
use super::tally::Tally;
use std::io;
use std::io::Write;

pub fn write_header<W: Write>(out: &mut W) -> io::Result<()> {
    writeln!(
        out,
        "memory      {} records and {} presence words; a book needs {} and {}",
        memory::RECORDS,
        memory::WORDS,
        hours::RECORDS,
        hours::WORDS
    )?;
    writeln!(
        out,
        "at first    record n is n + 1 active, -n - 1 reactive; every bit of every word is one"
    )
}

// What the call may not have touched.
pub fn write_others<W: Write>(compared: Compared, out: &mut W) -> io::Result<()> {
    write!(
        out,
        "  others  {:>5} records and {:>3} words compared, ",
        compared.records.all, compared.words.all
    )?;
    write_changed(compared, out)
}

fn write_changed<W: Write>(compared: Compared, out: &mut W) -> io::Result<()> {
    match (compared.records.changed, compared.words.changed) {
        (0, 0) => writeln!(out, "all as they were"),
        (records, words) => writeln!(out, "CHANGED: {records} records and {words} words"),
    }
}

pub fn write_tally<W: Write>(tally: &Tally, out: &mut W) -> io::Result<()> {
    writeln!(
        out,
        "\nat the end  {} lines: {} calls accepted, {} refused, {} lines passed over",
        tally.lines, tally.accepted, tally.refused, tally.not_understood
    )
}

// What no accepted call may have touched, from the first line to the last. The row has words of its own; what it shares with the
// one above is `write_changed`.
pub fn write_end<W: Write>(compared: Compared, out: &mut W) -> io::Result<()> {
    write!(
        out,
        "  never touched by an accepted call: {} records and {} words, compared with the first memory, ",
        compared.records.all, compared.words.all
    )?;
    write_changed(compared, out)
}
