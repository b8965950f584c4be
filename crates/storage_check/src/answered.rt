// The rows of an answer: accepted, or why the call is refused.
use super::memory::Touched;
use super::rig::NotLent;
use refusals::{BookRefusal, Refusal};
use std::io;
use std::io::Write;
use wording::{Layer, Named};

pub fn write_answer<W: Write>(
    answer: &Result<Touched, BookRefusal>,
    out: &mut W,
) -> io::Result<()> {
    match answer {
        Ok(_) => writeln!(out, "  accepted"),
        Err(refusal) => write_refusal(Refusal::Book(*refusal), out),
    }
}

pub fn write_count<W: Write>(answer: Result<u16, BookRefusal>, out: &mut W) -> io::Result<()> {
    match answer {
        Ok(hours) => writeln!(out, "  accepted  hours without a value: {hours}"),
        Err(refusal) => write_refusal(Refusal::Book(refusal), out),
    }
}

fn write_refusal<W: Write>(refusal: Refusal, out: &mut W) -> io::Result<()> {
    writeln!(
        out,
        "  refused   layer {} {}   number {}   place {:>5}   {refusal}",
        refusal.layer(),
        Layer(refusal),
        refusal.number(),
        refusal.place()
    )
}

pub fn write_missing<W: Write>(
    number: u8,
    missing: Result<u16, BookRefusal>,
    out: &mut W,
) -> io::Result<()> {
    match missing {
        Ok(hours) => writeln!(
            out,
            "  missing {hours:>5}          in {}",
            Named::Invoice(number)
        ),
        Err(refusal) => writeln!(
            out,
            "  missing     -          refused by number {}",
            Refusal::Book(refusal).number()
        ),
    }
}

pub fn write_no_month<W: Write>(out: &mut W) -> io::Result<()> {
    writeln!(
        out,
        "  missing     -          the hour is in no month of an opened year"
    )
}

pub fn write_lent<W: Write>(answer: Result<(), NotLent>, out: &mut W) -> io::Result<()> {
    match answer {
        Ok(()) => writeln!(out, "  so much is lent from here on"),
        Err(refusal) => writeln!(out, "  passed over: {refusal}"),
    }
}
