// Prints what captured service lines ask, or why they are refused, and how many there were of each.
#![tactic(auto)]

mod row;
mod session;
mod tally;

use line_input::read_lines;
use session::Session;
use std::io;
use std::io::{BufWriter, Read, Write};

fn inspect<R: Read, W: Write>(input: &mut R, out: &mut W) -> io::Result<()> {
    row::write_header(out)?;
    let mut session = Session::new(out);
    read_lines(input, &mut session)?;
    session.finish()
}

fn main(rt: HostRuntime) -> io::Result<()> {
    let mut out = BufWriter::new(rt.alloc(), rt.stdout())?;
    inspect(&mut rt.stdin(), &mut out)?;
    out.flush()
}
