// The energy that is drawn in a part of the year, in peak-load hours and in others.
ghost use Rattle.std.specs.Prelude.{◌≡◌, ◌≤◌};
ghost use Rattle.calendar.specs.PeakLoad.{peak_load};
ghost use Rattle.hours.specs.Values.{energy_in, other, values_in};

use super::record::HourRecord;
use super::scan::part_totals;
use calendar::{Calendar, Span};

// Energy in kWh.
#[derive(Clone, Copy, PartialEq, Eq, Debug)]
pub struct Energy {
    pub peak_load: u32,
    pub other: u32,
}

#[tactic(auto, unfolding(crate::specs::Totals::totals_of))]
pub fn drawn_energy(records: &[HourRecord], span: Span, calendar: &Calendar) -> Energy
    ensures peak_load { result.peak_load ≡ energy_in (peak_load calendar.now.year.number) span.first (values_in span records.now) }
    ensures other { result.other ≡ energy_in (other (peak_load calendar.now.year.number)) span.first (values_in span records.now) }
{
    let totals = part_totals(records, span, calendar);
    Energy {
        peak_load: totals.peak_load_kwh,
        other: totals.other_kwh,
    }
}
