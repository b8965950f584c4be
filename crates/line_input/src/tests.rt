// Texts read line by line, with and without a newline at their end.
ghost use Rattle.std.specs.Prelude.{◌≡◌, [], ◌∷◌, ◌++◌};

use super::{Lines, read_lines};
use std::alloc::Global;
use std::io;
use std::io::{ErrorKind, Read};
use std::test::Fail;

// The text with a bar at the end of each line.
#[derive(Drop)]
struct Barred {
    text: Vec<u8>,
}

impl Lines for Barred {
    ghost pushes = { λ s byte t. t.text.items ≡ s.text.items ++ byte ∷ [] };

    ghost ends = { λ s t. t.text.items ≡ s.text.items ++ 124 ∷ [] };

    fn push(&mut self, byte: u8) -> io::Result<()> {
        self.text.push(byte)?;
        Ok(())
    }

    fn end_line(&mut self) -> io::Result<()> {
        self.text.push(b'|')?;
        Ok(())
    }
}

// Fails at each read.
#[derive(Clone, Copy)]
struct Broken;

impl Read for Broken {
    fn read(&mut self, _buf: &mut [u8]) -> io::Result<usize> {
        Err(io::Error::from(ErrorKind::BrokenPipe))
    }
}

fn read_barred<R: Read>(alloc: Global, input: &mut R) -> io::Result<Barred> {
    let mut lines = Barred {
        text: Vec::new(alloc),
    };
    read_lines(input, &mut lines)?;
    Ok(lines)
}

#[test]
fn ends_each_line_and_the_last_piece(rt: HostRuntime) -> Result<(), Fail> {
    for (text, want) in [
        ("", ""),
        ("\n", "|"),
        ("ab", "ab|"),
        ("ab\n", "ab|"),
        ("ab\n\nc", "ab||c|"),
        ("ab\r\nc\n", "ab\r|c|"),
    ] {
        let lines = read_barred(rt.alloc(), &mut text.as_bytes())?;
        assert_eq!(rt; lines.text.as_slice(), want.as_bytes());
    }
    Ok(())
}

#[test]
fn goes_on_after_a_short_read(rt: HostRuntime) -> Result<(), Fail> {
    let mut input = "a".as_bytes().chain("b\nc".as_bytes());
    let lines = read_barred(rt.alloc(), &mut input)?;
    assert_eq!(rt; lines.text.as_slice(), "ab|c|".as_bytes());
    Ok(())
}

#[test]
fn takes_a_line_longer_than_a_chunk(rt: HostRuntime) -> Result<(), Fail> {
    let text = vec![in rt.alloc(); b'x'; 10_000]?;
    let lines = read_barred(rt.alloc(), &mut text.as_slice())?;
    assert_eq!(rt; lines.text.len(), 10_001);
    assert_eq!(rt; lines.text.last(), Some(&b'|'));
    Ok(())
}

#[test]
fn hands_a_failure_on(rt: HostRuntime) {
    let mut input = "ab\nc".as_bytes().chain(Broken);
    let read = read_barred(rt.alloc(), &mut input).map_err(|e| e.kind());
    assert_eq!(rt; read.err(), Some(ErrorKind::BrokenPipe));
}
