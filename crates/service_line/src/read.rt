// Reading: what a line asks.
ghost use Rattle.std.specs.Prelude.{◌≡◌, IfOk};
ghost use Rattle.service_line.specs.Formats.{request_line};
ghost use Rattle.service_line.specs.Reading.{reading};

use super::frame::decode;
use super::line::unhex;
use super::request::Request;
use refusals::Refusal;

// What a line asks, of any bytes whatever: refused as a line, then for the frame that it carries.
pub fn read_line(line: &[u8]) -> Result<Request, Refusal>
    ensures answers { result ≡ reading line.now }
    ensures written_back { IfOk result (λ request. request_line request ≡ line.now) }
{
    let mut buffer = [0u8; 32];
    let frame = unhex(line, &mut buffer)?;
    let request = decode(frame)?;
    Ok(request)
}
