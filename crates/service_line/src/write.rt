// Writing: the line of a request and of an answer, into memory that the caller lends.
ghost use Rattle.std.specs.Prelude.{◌≡◌, ◌+◌, ◌*◌, ◌/◌, ◌%◌, ◌<◌, ◌≤◌, ◌∷◌, ◌++◌, length, take, Ok, slice_set};
ghost use Rattle.service_line.specs.Formats.{answer_body, answer_line, field2, frame_of, over, request_line, signed2, signed8, signed8s, sum_of};
ghost use Rattle.service_line.specs.Hex.{digit_of, text_of};
ghost use Rattle.service_line.specs.Reading.{reading};

use super::answer::Answer;
use super::frame::check_byte;
use super::hex::digit;
use super::request::Request;

// Room for the longest line, which is that of an invoice.
pub type LineBuffer = [u8; 150];

// Writes a byte as two digits.
fn put_byte(byte: u8, line: &mut LineBuffer, at: usize)
    requires { at + 1 < 150 }
    ensures digits { line.new ≡ slice_set (slice_set line.old at (digit_of (byte / 16))) (at + 1) (digit_of (byte % 16)) }
{
    line[at] = digit(byte / 16);
    line[at + 1] = digit(byte % 16);
}

// Writes the text of bytes over the front of the line.
// Places are counted: the proof did not close over `chunks_exact_mut`, of which std does not say what the slice ends as.
fn put_bytes(bytes: &[u8], line: &mut LineBuffer)
    requires { length bytes.now ≤ 75 }
    ensures text { line.new ≡ over (text_of bytes.now) line.old }
{
    for (i, byte) in bytes.iter().enumerate() {
        put_byte(*byte, line, 2 * i);
    }
}

// Writes the frame of a body, which is the body and its check, and answers the line's length.
fn put_frame(body: &[u8], line: &mut LineBuffer) -> usize
    requires { length body.now ≤ 74 }
    ensures len { result ≡ length (text_of (frame_of body.now)) }
    ensures text { line.new ≡ over (text_of (frame_of body.now)) line.old }
{
    put_bytes(body, line);
    put_byte(check_byte(body), line, 2 * body.len());
    2 * body.len() + 2
}

// The body of a first value for an hour, or of a new one; the kind is the body's first byte.
fn hour_body(kind: u8, hour: u16, active: i16, reactive: i16) -> [u8; 7]
    ensures body { result ≡ kind ∷ (field2 hour ++ signed2 active ++ signed2 reactive) }
{
    let [h1, h0] = hour.to_be_bytes();
    let [a1, a0] = active.to_be_bytes();
    let [r1, r0] = reactive.to_be_bytes();
    [kind, h1, h0, a1, a0, r1, r0]
}

// Writes the line of a request over the front of the buffer, and answers its length.
// No heap in the unit: the caller lends the memory. The length is answered and no slice, since `text` speaks of the whole buffer.
pub fn write_request(request: Request, line: &mut LineBuffer) -> usize
    ensures len { result ≡ length (request_line request) }
    ensures room { result ≤ 150 }
    ensures text { line.new ≡ over (request_line request) line.old }
    ensures reads_back { reading (take result line.new) ≡ Ok request }
{
    match request {
        Request::Post {
            hour,
            active,
            reactive,
        } => put_frame(&hour_body(0x01, hour, active, reactive), line),
        Request::Amend {
            hour,
            active,
            reactive,
        } => put_frame(&hour_body(0x02, hour, active, reactive), line),
        Request::Choose {
            choice,
            power,
            extra_withdrawal,
            extra_input,
        } => {
            let [p1, p0] = power.to_be_bytes();
            let [w1, w0] = extra_withdrawal.to_be_bytes();
            let [i1, i0] = extra_input.to_be_bytes();
            put_frame(&[0x03, choice, p1, p0, w1, w0, i1, i0], line)
        }
        Request::Open {
            year,
            area,
            connection,
        } => {
            let [y1, y0] = year.to_be_bytes();
            put_frame(&[0x04, y1, y0, area, connection], line)
        }
        Request::Advise => put_frame(&[0x05], line),
        Request::Invoice { number } => put_frame(&[0x06, number], line),
    }
}

// The body of an advice: kind, choice, kW and charge.
fn advice_body(choice: u8, power: u16, charge: i64) -> [u8; 12]
    ensures body { result ≡ 0x12 ∷ choice ∷ (field2 power ++ signed8 charge) }
{
    let [p1, p0] = power.to_be_bytes();
    let [c7, c6, c5, c4, c3, c2, c1, c0] = charge.to_be_bytes();
    [0x12, choice, p1, p0, c7, c6, c5, c4, c3, c2, c1, c0]
}

// The body of an invoice: kind, number and nine amounts.
fn invoice_body(number: u8, amounts: [i64; 9]) -> [u8; 74]
    ensures body { result ≡ 0x13 ∷ number ∷ signed8s amounts }
{
    let mut body = [0u8; 74];
    body[0] = 0x13;
    body[1] = number;
    body[2..].copy_from_slice(amounts.map(i64::to_be_bytes).as_flattened());
    body
}

// Writes the line of an answer over the front of the buffer, and answers its length.
// No heap in the unit: the caller lends the memory. The length is answered and no slice, since `text` speaks of the whole buffer.
pub fn write_answer(answer: Answer, line: &mut LineBuffer) -> usize
    ensures len { result ≡ length (answer_line answer) }
    ensures room { result ≤ 150 }
    ensures text { line.new ≡ over (answer_line answer) line.old }
    ensures checked { sum_of (frame_of (answer_body answer)) % 256 ≡ 0 }
{
    match answer {
        Answer::Accepted => put_frame(&[0x10], line),
        Answer::Refused(refusal) => {
            let [p3, p2, p1, p0] = refusal.place().to_be_bytes();
            put_frame(
                &[0x11, refusal.layer(), refusal.number(), p3, p2, p1, p0],
                line,
            )
        }
        Answer::Advice {
            choice,
            power,
            charge,
        } => put_frame(&advice_body(choice, power, charge), line),
        Answer::Invoice { number, amounts } => put_frame(&invoice_body(number, amounts), line),
    }
}
