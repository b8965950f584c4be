// A line as it comes in, byte by byte: however long it grows, its first 65 bytes tell what it asks.
ghost use Rattle.std.specs.Prelude.{◌≡◌, ℕ, ◌≤◌, List, [], ◌∷◌, ◌++◌, length, take};
ghost use Rattle.service_line.specs.Fronts.{Keeps};
ghost use Rattle.service_line.specs.Reading.{reading};

use super::read::read_line;
use super::request::Request;
use refusals::Refusal;
use std::marker::Model;

// No heap in the unit: the bytes stand in fixed memory.
#[derive(Clone, Copy)]
pub struct Received {
    bytes: [u8; 65],
    len: usize,
}

// Clauses see the bytes that are kept.
impl Model for Received {
    ghost use Rattle.std.specs.Prelude.{ℕ, ◌≡◌, ◌≤◌, List, length, take};
    ghost use Rattle.std.proofs.Common.{ap₂};
    ghost use Rattle.std.proofs.lemmas.List.{length-take-le};
    ghost use Rattle.service_line.specs.Fronts.{filled};

    ghost Value = { List ℕ };

    ghost view = { λ r. take r.len r.bytes };

    ghost invariant = { λ r. (length r.bytes ≡ 65) × (r.len ≤ length r.bytes) × (filled (take r.len r.bytes) ≡ r.bytes) };

    ghost inverse = { λ kept. record { bytes = filled kept; len = length kept } };

    ghost inverse_ok = { λ r holds. ap₂ (λ bytes len. record { bytes = bytes; len = len }) holds.2 (length-take-le r.len r.bytes holds.1) };
}

impl Received {
    // Nothing yet.
    pub fn new() -> Received
        ensures nothing { result ≡ [] }
        ensures empty { Keeps result [] }
    {
        Received {
            bytes: [0; 65],
            len: 0,
        }
    }

    // One byte more.
    pub fn push(&mut self, byte: u8)
        ensures front { self.new ≡ take 65 (self.old ++ byte ∷ []) }
        ensures more { (text : List ℕ) → Keeps self.old text → Keeps self.new (text ++ byte ∷ []) }
    {
        if self.len < 65 {
            self.bytes[self.len] = byte;
            self.len += 1;
        }
    }

    // The first 65 bytes, or all of a shorter line.
    pub fn front(&self) -> &[u8]
        ensures front { result.now ≡ self.now }
        ensures few { length result.now ≤ 65 }
    {
        &self.bytes[..self.len]
    }

    // What the whole line asks.
    pub fn read(&self) -> Result<Request, Refusal>
        ensures answers { (text : List ℕ) → Keeps self.now text → result ≡ reading text }
    {
        read_line(self.front())
    }
}
