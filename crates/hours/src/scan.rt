// What a part of the year comes to, in one pass over its hours.
ghost use Rattle.std.specs.Prelude.{◌≡◌, ◌+◌, ◌≤◌};
ghost use Rattle.hours.specs.Totals.{Within, nothing, peak_of, totals_of, with_hour};
ghost use Rattle.hours.specs.Values.{limited, values_in};

use super::flow::Flow;
use super::record::{HourRecord, part};
use calendar::{Calendar, Span};

// Drawn energy in kWh, in peak-load hours and in others, and the highest values: drawn, drawn in a peak-load hour, and
// reactive, drawn and fed in.
#[derive(Clone, Copy, PartialEq, Eq, Default, Debug)]
pub struct Totals {
    pub peak_load_kwh: u32,
    pub other_kwh: u32,
    pub drawn: u16,
    pub high_load: u16,
    pub reactive_drawn: u16,
    pub reactive_fed_in: u16,
}

// Which of the highest values; an enum and no closure, since clauses name it.
#[derive(Clone, Copy, PartialEq, Eq, Debug)]
pub enum Peak {
    Drawn,
    HighLoad,
    ReactiveDrawn,
    ReactiveFedIn,
}

impl Totals {
    // What no hours come to: the name by which clauses speak of the default.
    pub fn none() -> Totals
        ensures nothing { result ≡ nothing }
    {
        Totals::default()
    }

    pub fn peak(&self, peak: Peak) -> u16
        ensures peak { result ≡ peak_of peak self.now }
    {
        match peak {
            Peak::Drawn => self.drawn,
            Peak::HighLoad => self.high_load,
            Peak::ReactiveDrawn => self.reactive_drawn,
            Peak::ReactiveFedIn => self.reactive_fed_in,
        }
    }

    // With one hour more. Its value counts either way; the flag tells as what.
    fn with(self, value: HourRecord, in_peak_load: bool) -> Totals
        requires room { self.peak_load_kwh + self.other_kwh ≤ 281088000 }
        ensures with { result ≡ with_hour self in_peak_load (limited value) }
    {
        let drawn = Flow::Drawn.of(value);
        let high_load = if in_peak_load { drawn } else { 0 };
        Totals {
            peak_load_kwh: self.peak_load_kwh + u32::from(high_load),
            other_kwh: self.other_kwh + u32::from(drawn - high_load),
            drawn: self.drawn.max(drawn),
            high_load: self.high_load.max(high_load),
            reactive_drawn: self.reactive_drawn.max(Flow::ReactiveDrawn.of(value)),
            reactive_fed_in: self.reactive_fed_in.max(Flow::ReactiveFedIn.of(value)),
        }
    }
}

// Hours by their place in the part: zipped with the records they take more than twice the time. Inlined, since who asks for one of
// the totals alone is not to pay for all.
#[inline(always)]
pub fn part_totals(records: &[HourRecord], span: Span, calendar: &Calendar) -> Totals
    ensures totals { result ≡ totals_of calendar.now.year.number span.first (values_in span records.now) }
    ensures within { Within result }
{
    let mut sum = Totals::none();
    let hours = part(records, span);
    for (i, value) in hours.iter().enumerate() {
        sum = sum.with(*value, calendar.is_peak_load(span.first + i as u16));
    }
    sum
}
