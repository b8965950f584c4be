// Text of the script as it is printed again.
use std::fmt;
use wording::printable;

// The most bytes that are printed of a piece of text.
const MOST: usize = 24;

// A piece of text in quotes; what is no printable character of ASCII is a dot, and two dots stand for what is cut.
#[derive(Clone, Copy)]
pub struct Shown<'a>(pub &'a str);

impl fmt::Display for Shown<'_> {
    fn fmt<W: fmt::Write>(&self, f: &mut fmt::Formatter<W>) -> fmt::Result {
        let bytes = self.0.as_bytes();
        f.write_char('`')?;
        for byte in bytes.iter().take(MOST) {
            f.write_char(printable(*byte))?;
        }
        f.write_str(if bytes.len() > MOST { "..`" } else { "`" })
    }
}
