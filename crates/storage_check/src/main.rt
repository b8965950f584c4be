// Goes through a script of calls on a book, and prints what each does to the lent memory.
#![tactic(auto)]

mod answered;
mod asked;
mod held;
mod lines;
mod memory;
mod rig;
mod script;
mod session;
mod sheet;
mod shown;
mod store;
mod tally;

use line_input::read_lines;
use session::Session;
use std::alloc::Global;
use std::io;
use std::io::{BufWriter, Read, Write};

fn run<R: Read, W: Write>(heap: Global, input: &mut R, out: &mut W) -> io::Result<()> {
    let mut session = Session::new(heap, out)?;
    session.begin()?;
    read_lines(input, &mut session)?;
    session.finish()
}

fn main(rt: HostRuntime) -> io::Result<()> {
    let mut out = BufWriter::new(rt.alloc(), rt.stdout())?;
    run(rt.alloc(), &mut rt.stdin(), &mut out)?;
    out.flush()
}
