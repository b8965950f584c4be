// Layer 2: why the bytes of a frame are no request. What is refused stays the byte that came in.
ghost use Rattle.std.specs.Prelude.{◌≡◌, Some};
ghost use Rattle.refusals.specs.Words.{frame_words};
ghost use Rattle.refusals.specs.Rows.{row, frame_row};

use super::Entry;
use std::error::Error;
use std::fmt;

#[derive(Clone, Copy, PartialEq, Eq, Debug)]
pub enum FrameRefusal {
    // The first byte is no kind of request.
    Kind { kind: u8 },
    // Not as many bytes as the kind has; these were found, kind and check included.
    Length { bytes: u8 },
    // The bytes do not add up to a multiple of 256; this is left over.
    Check { sum: u8 },
}

impl FrameRefusal {
    pub(crate) fn entry(&self) -> Entry
        ensures { row 2 result.number result.place ≡ frame_row self.now }
    {
        match *self {
            FrameRefusal::Kind { kind } => Entry::new(13, u32::from(kind)),
            FrameRefusal::Length { bytes } => Entry::new(14, u32::from(bytes)),
            FrameRefusal::Check { sum } => Entry::new(15, u32::from(sum)),
        }
    }
}

impl fmt::Display for FrameRefusal {
    ghost output = { λ r. Some (frame_words r) };

    fn fmt<W: fmt::Write>(&self, f: &mut fmt::Formatter<W>) -> fmt::Result {
        match *self {
            FrameRefusal::Kind { kind } => write!(f, "{kind:02X} is no kind of request"),
            FrameRefusal::Length { bytes } => write!(
                f,
                "a frame of this kind has not {bytes} bytes"
            ),
            FrameRefusal::Check { sum } => write!(
                f,
                "the bytes add up to {sum} modulo 256, not to 0"
            ),
        }
    }
}

impl Error for FrameRefusal {}
