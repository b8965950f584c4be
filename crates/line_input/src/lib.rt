// Reads lines of any length from any input, in a fixed amount of memory.
#![tactic(auto)]

ghost use Rattle.std.specs.Prelude.{◌≡◌, ℕ, List, OnOk, ⊤};
ghost use Rattle.std.specs.List.{FoldsTo};
ghost use Rattle.std.specs.Io.KnownBytes.{Consumes, IsAtEnd};
ghost use Rattle.line_input.specs.Taken.{Takes, with_last_ended};

#[cfg(test)]
mod tests;

use std::io;
use std::io::{ErrorKind, Read};

// What takes in lines, byte by byte.
pub trait Lines {
    // What a byte more may make of it.
    ghost pushes: { Self → ℕ → Self → Type 0 } = { λ _ _ _. ⊤ };

    // What the end of a line may make of it.
    ghost ends: { Self → Self → Type 0 } = { λ _ _. ⊤ };

    // One byte more of the line.
    fn push(&mut self, byte: u8) -> io::Result<()>
        ensures { OnOk result (pushes self.old byte self.new) };

    // The line is whole.
    fn end_line(&mut self) -> io::Result<()>
        ensures { OnOk result (ends self.old self.new) };
}

// Hands on the bytes of a chunk, and ends a line at each newline.
fn hand_on<L: Lines>(chunk: &[u8], lines: &mut L) -> io::Result<()>
    ensures { OnOk result (FoldsTo (Takes L.pushes L.ends) lines.old chunk.now lines.new) }
{
    for byte in chunk {
        if *byte == b'\n' {
            lines.end_line()?;
        } else {
            lines.push(*byte)?;
        }
    }
    Ok(())
}

// Reads to the end of the input, a chunk at a time. The last piece is a line too, if no newline is behind it.
// After an error nothing is promised of what was taken in.
pub fn read_lines<R: Read, L: Lines>(input: &mut R, lines: &mut L) -> io::Result<()>
    ensures to_the_end { OnOk result (IsAtEnd (R.remaining input.new)) }
    ensures each_byte { OnOk result ((text : List ℕ) × Consumes (R.remaining input.old) (R.remaining input.new) text
        × FoldsTo (Takes L.pushes L.ends) lines.old (with_last_ended text) lines.new) }
{
    let mut chunk = [0u8; 4096];
    let mut last = b'\n';
    // Every loop is shown to end, so the chunks are counted.
    for _ in 0..u64::MAX {
        let n = input.read(&mut chunk)?;
        if n == 0 {
            if last != b'\n' {
                lines.end_line()?;
            }
            return Ok(());
        }
        hand_on(&chunk[..n], lines)?;
        last = chunk[n - 1];
    }
    // No input has so many chunks.
    Err(io::Error::from(ErrorKind::FileTooLarge))
}
