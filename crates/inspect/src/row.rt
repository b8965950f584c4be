// One row of the print-out: a line's number, its bytes and its text, and what it asks or why it is refused.
use refusals::Refusal;
use service_line::Request;
use std::io::Write;
use std::{io, iter};
use wording::{Layer, Named, printable};

// The text column: the longest request has 18 characters.
const TEXT: usize = 18;

pub fn write_header<W: Write>(out: &mut W) -> io::Result<()> {
    writeln!(
        out,
        "values are drawn where positive, fed in where negative\n"
    )?;
    writeln!(
        out,
        "  line   bytes  text                  check  kind     fields, or why it is refused"
    )
}

pub fn write_line<W: Write>(
    number: u64,
    bytes: u64,
    front: &[u8],
    read: &Result<Request, Refusal>,
    out: &mut W,
) -> io::Result<()> {
    write!(out, "{number:>6}  {bytes:>6}  ")?;
    write_text(front, out)?;
    match *read {
        Ok(request) => {
            write_check(front, out)?;
            write_request(request, out)
        }
        Err(refusal) => write_refusal(refusal, out),
    }
}

// The text in a column of its own, with two dots behind it if it is cut.
fn write_text<W: Write>(front: &[u8], out: &mut W) -> io::Result<()> {
    for byte in front.iter().copied().chain(iter::repeat(b' ')).take(TEXT) {
        write!(out, "{}", printable(byte))?;
    }
    out.write_all(if front.len() > TEXT { b"..  " } else { b"    " })
}

// The columns of a request are this program's own.
fn write_request<W: Write>(request: Request, out: &mut W) -> io::Result<()> {
    match request {
        Request::Post {
            hour,
            active,
            reactive,
        } => write_hour("post", hour, active, reactive, out),
        Request::Amend {
            hour,
            active,
            reactive,
        } => write_hour("amend", hour, active, reactive, out),
        Request::Choose {
            choice,
            power,
            extra_withdrawal,
            extra_input,
        } => {
            write!(out, "choose   choice {choice:>3}   power {power:>5} kW")?;
            writeln!(
                out,
                "   extra withdrawal {extra_withdrawal:>5} kVAr   extra input {extra_input:>5} kVAr"
            )
        }
        Request::Open {
            year,
            area,
            connection,
        } => {
            writeln!(
                out,
                "open     year {year:>5}   area {}   connection {}",
                Named::Area(area),
                Named::Connection(connection)
            )
        }
        Request::Advise => writeln!(out, "advise   no fields"),
        Request::Invoice { number } => writeln!(out, "invoice  number {}", Named::Invoice(number)),
    }
}

fn write_hour<W: Write>(
    name: &str,
    hour: u16,
    active: i16,
    reactive: i16,
    out: &mut W,
) -> io::Result<()> {
    writeln!(
        out,
        "{name:<9}hour {hour:>5}   active {active:>6} kWh   reactive {reactive:>6} kVArh"
    )
}

// The check is the line's last byte.
fn write_check<W: Write>(front: &[u8], out: &mut W) -> io::Result<()> {
    match front {
        [.., high, low] => write!(out, "{}{}     ", printable(*high), printable(*low)),
        _ => write!(out, "       "),
    }
}

// Only the columns stand here, and no other program has the same.
fn write_refusal<W: Write>(refusal: Refusal, out: &mut W) -> io::Result<()> {
    writeln!(
        out,
        "-      refused  layer {} {:<6}   number {}   place {:>3}   {refusal}",
        refusal.layer(),
        Layer(refusal),
        refusal.number(),
        refusal.place()
    )
}
