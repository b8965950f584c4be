// The frame layer: what the bytes of a frame ask.
ghost use Rattle.std.specs.Prelude.{◌≡◌, ◌%◌, ◌≤◌, length};
ghost use Rattle.service_line.specs.Formats.{check_of, sum_of};
ghost use Rattle.service_line.specs.Frames.{asked, decoded};

use super::request::Request;
use refusals::FrameRefusal;

// The sum of the bytes, modulo 256.
pub(crate) fn sum(bytes: &[u8]) -> u8
    ensures sum { result ≡ sum_of bytes.now % 256 }
{
    bytes.iter().fold(0u8, |sum, byte| sum.wrapping_add(*byte))
}

// The check of a body: what brings its sum to a multiple of 256.
pub(crate) fn check_byte(body: &[u8]) -> u8
    ensures check { result ≡ check_of body.now }
{
    sum(body).wrapping_neg()
}

// What a frame asks, whatever its check: refused for its kind, then for its length.
// That a frame has at most 32 bytes is required and not a type's: a type would hold the slice, and be opened at each pattern.
fn fields(bytes: &[u8]) -> Result<Request, FrameRefusal>
    requires { length bytes.now ≤ 32 }
    ensures asks { result ≡ asked bytes.now }
{
    match bytes {
        [] => Err(FrameRefusal::Kind { kind: 0 }),
        // 0x01 and 0x02 have the same fields: an arm for both, which then tells them apart, is longer.
        [0x01, h1, h0, a1, a0, r1, r0, _] => Ok(Request::Post {
            hour: u16::from_be_bytes([*h1, *h0]),
            active: i16::from_be_bytes([*a1, *a0]),
            reactive: i16::from_be_bytes([*r1, *r0]),
        }),
        [0x02, h1, h0, a1, a0, r1, r0, _] => Ok(Request::Amend {
            hour: u16::from_be_bytes([*h1, *h0]),
            active: i16::from_be_bytes([*a1, *a0]),
            reactive: i16::from_be_bytes([*r1, *r0]),
        }),
        [0x03, choice, p1, p0, w1, w0, i1, i0, _] => Ok(Request::Choose {
            choice: *choice,
            power: u16::from_be_bytes([*p1, *p0]),
            extra_withdrawal: u16::from_be_bytes([*w1, *w0]),
            extra_input: u16::from_be_bytes([*i1, *i0]),
        }),
        [0x04, y1, y0, area, connection, _] => Ok(Request::Open {
            year: u16::from_be_bytes([*y1, *y0]),
            area: *area,
            connection: *connection,
        }),
        [0x05, _] => Ok(Request::Advise),
        [0x06, number, _] => Ok(Request::Invoice { number: *number }),
        [0x01..=0x06, ..] => Err(FrameRefusal::Length {
            bytes: bytes.len() as u8,
        }),
        [kind, ..] => Err(FrameRefusal::Kind { kind: *kind }),
    }
}

// What a frame asks: refused for its kind, for its length and for its check, in this order.
pub(crate) fn decode(bytes: &[u8]) -> Result<Request, FrameRefusal>
    requires { length bytes.now ≤ 32 }
    ensures asks { result ≡ decoded bytes.now }
{
    let request = fields(bytes)?;
    match sum(bytes) {
        0 => Ok(request),
        sum => Err(FrameRefusal::Check { sum }),
    }
}
