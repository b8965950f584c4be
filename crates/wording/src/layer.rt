// The layers by name.
ghost use Rattle.std.specs.Prelude.{Some};
ghost use Rattle.std.specs.Fmt.{padded};
ghost use Rattle.wording.specs.Layers.{layer_name};

use refusals::Refusal;
use std::fmt;

// The layer that refuses, as `book`.
#[derive(Clone, Copy)]
pub struct Layer(pub Refusal);

impl fmt::Display for Layer {
    ghost output = { λ l. Some (layer_name l.0) };

    ghost styled_output = { λ l spec. Some (padded spec (layer_name l.0)) };

    fn fmt<W: fmt::Write>(&self, f: &mut fmt::Formatter<W>) -> fmt::Result {
        f.pad(match self.0 {
            Refusal::Line(_) => "line",
            Refusal::Frame(_) => "frame",
            Refusal::Book(_) => "book",
            Refusal::Tariff(_) => "tariff",
        })
    }
}
