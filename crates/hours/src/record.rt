// One hour's record, and the records that a caller lends.
ghost use Rattle.std.specs.Prelude.{◌≡◌, ◌≤◌, length, slice_set};
ghost use Rattle.std.specs.List.{between};
ghost use Rattle.hours.specs.Values.{limit, limited};

use calendar::Span;

// A record for each hour of a leap year.
pub const RECORDS: usize = 8_784;

// The most kWh or kVArh of an hour that count, either way.
pub(crate) const MOST: i16 = 32_000;

// Active energy in kWh and reactive energy in kVArh; positive is drawn, negative fed in.
#[derive(Clone, Copy, PartialEq, Eq, Debug)]
pub struct HourRecord {
    pub active: i16,
    pub reactive: i16,
}

impl HourRecord {
    // The value as it counts: a stored value beyond 32,000 counts as the nearer limit.
    pub fn limited(self) -> HourRecord
        ensures limited { result ≡ limited self }
    {
        HourRecord {
            active: nearer_limit(self.active),
            reactive: nearer_limit(self.reactive),
        }
    }
}

fn nearer_limit(value: i16) -> i16
    ensures limit { result ≡ limit value }
{
    value.clamp(-MOST, MOST)
}

// Writes the record of an hour in place; past the lent records it writes nothing.
pub fn write_record(records: &mut [HourRecord], hour: u16, value: HourRecord)
    ensures written { records.new ≡ slice_set records.old hour value }
{
    // By index: of a slice from which `get_mut` lends an element, no element is known afterwards.
    let i = usize::from(hour);
    if i < records.len() {
        records[i] = value;
    }
}

// The records of a part of the year, as far as they are lent. Memory and part come side by side: the one is lent to a call, the
// other is asked for.
pub fn part(records: &[HourRecord], span: Span) -> &[HourRecord]
    ensures part { result.now ≡ between span.first span.end records.now }
    ensures few { length result.now ≤ 8784 }
{
    let end = usize::from(span.end).min(records.len());
    let first = usize::from(span.first).min(end);
    &records[first..end]
}
