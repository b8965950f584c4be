// Words for what the unit's programs print: layers, areas, connections and invoices, and bytes as text.
#![tactic(auto)]

mod layer;
mod names;
mod text;

pub use layer::Layer;
pub use names::Named;
pub use text::printable;
