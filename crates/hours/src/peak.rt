// The highest value of a part of the year.
ghost use Rattle.std.specs.Prelude.{◌≡◌, ◌≤◌};
ghost use Rattle.hours.specs.Values.{highest_of, values_in};

use super::flow::Flow;
use super::record::{HourRecord, part};
use calendar::Span;

// The highest value of a flow among the hours of a part, 0 if none is positive.
pub fn highest(records: &[HourRecord], span: Span, flow: Flow) -> u16
    ensures highest { result ≡ highest_of flow (values_in span records.now) }
    ensures at_most { result ≤ 32000 }
{
    // A loop: over an iterator's `max` or `fold` the compiler takes the hours one by one, in several times the time.
    let mut high = 0;
    let hours = part(records, span);
    for hour in hours {
        high = flow.of(*hour).max(high);
    }
    high
}
