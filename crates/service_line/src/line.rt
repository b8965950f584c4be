// The line layer: the bytes that a line's text carries, two digits to each.
ghost use Rattle.std.specs.Prelude.{◌≡◌, ◌<◌, ◌≤◌, length, IfOk, MatchResult, Ok, Err};
ghost use Rattle.service_line.specs.Lines.{carried, ill_sized};
ghost use Rattle.service_line.specs.Parts.{byte_at, digit_at};

use super::hex::digit_value;
use refusals::LineRefusal;

// A line has 4 to 64 text bytes, an even number.
fn ill_sized(len: usize) -> bool
    ensures sized { result ≡ ill_sized len }
{
    len < 4 || len > 64 || len % 2 != 0
}

// The value of the digit in this column.
fn nibble(digit: u8, column: u8) -> Result<u8, LineRefusal>
    ensures value { result ≡ digit_at column digit }
    ensures small { IfOk result (λ value. value < 16) }
{
    digit_value(digit).ok_or(LineRefusal::Digit { column })
}

// The byte of two digits, of which the first stands in this column.
#[tactic(auto, unfolding(crate::specs::Parts::byte_at))]
fn byte(high: u8, low: u8, column: u8) -> Result<u8, LineRefusal>
    requires { column < 64 }
    ensures value { result ≡ byte_at column high low }
{
    Ok(nibble(high, column)? * 16 + nibble(low, column + 1)?)
}

// The bytes that a line carries, written into the buffer: refused for its length, then for its first character that is no digit.
pub(crate) fn unhex<'a>(line: &[u8], buffer: &'a mut [u8; 32]) -> Result<&'a [u8], LineRefusal>
    ensures bytes { MatchResult result (λ bytes. carried line.now ≡ Ok bytes.now) (λ refusal. carried line.now ≡ Err refusal) }
    ensures fits { IfOk result (λ bytes. length bytes.now ≤ 32) }
{
    if ill_sized(line.len()) {
        return Err(LineRefusal::Length);
    }
    let (pairs, _) = line.as_chunks::<2>();
    // By index: the column of a pair is told by its place.
    for (i, [high, low]) in pairs.iter().enumerate() {
        buffer[i] = byte(*high, *low, (2 * i + 1) as u8)?;
    }
    Ok(&buffer[..pairs.len()])
}
