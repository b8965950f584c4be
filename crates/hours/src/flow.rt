// The four flows that are measured at a connection; an enum and no closure, since clauses name them.
ghost use Rattle.std.specs.Prelude.{◌≡◌, ◌≤◌};
ghost use Rattle.hours.specs.Values.{flow_of, limit, limited, positive};

use super::record::{HourRecord, MOST};

#[derive(Clone, Copy, PartialEq, Eq, Debug)]
pub enum Flow {
    Drawn,
    FedIn,
    ReactiveDrawn,
    ReactiveFedIn,
}

impl Flow {
    // How much of this flow an hour has, as its record counts.
    pub fn of(self, value: HourRecord) -> u16
        ensures flow { result ≡ flow_of self (limited value) }
        ensures at_most { result ≤ 32000 }
    {
        match self {
            Flow::Drawn => positive(value.active),
            Flow::FedIn => positive(value.active.saturating_neg()),
            Flow::ReactiveDrawn => positive(value.reactive),
            Flow::ReactiveFedIn => positive(value.reactive.saturating_neg()),
        }
    }
}

// A value above zero, as it counts, or 0.
fn positive(value: i16) -> u16
    ensures positive { result ≡ positive (limit value) }
    ensures at_most { result ≤ 32000 }
{
    value.clamp(0, MOST).unsigned_abs()
}
