// The presence words: hour h has a value if bit h mod 64 (0 is the lowest) of word h div 64 is one.
ghost use Rattle.std.specs.Prelude.{◌≡◌, ◌-◌, ◌/◌, ◌%◌, ◌^◌, ◌<◌, ◌≤◌, count_ones, slice_index};
ghost use Rattle.hours.specs.Presence.{cleared, count, first_absent, marked, present};

use calendar::Span;

// The words with a bit for each hour of a leap year.
pub const WORDS: usize = 138;

// A word, or 0 past those that are lent.
fn word(words: &[u64], i: usize) -> u64
    ensures word { result ≡ slice_index words.now i }
{
    words.get(i).copied().unwrap_or(0)
}

#[tactic(auto, unfolding(crate::specs::Presence::present), using(std::proofs::lemmas::Nat::and_mask))]
pub fn is_present(words: &[u64], hour: u16) -> bool
    ensures present { result ≡ present words.now hour }
{
    word(words, usize::from(hour / 64)) >> (hour % 64) & 1 == 1
}

// Sets the bit of an hour; past the lent words it sets none.
#[tactic(auto, unfolding(crate::specs::Presence::marked), using(std::proofs::lemmas::List::set_past))]
pub fn mark(words: &mut [u64], hour: u16)
    ensures marked { words.new ≡ marked words.old hour }
{
    // By index: of a slice from which `get_mut` lends an element, no element is known afterwards.
    let i = usize::from(hour / 64);
    if i < words.len() {
        words[i] |= 1 << (hour % 64);
    }
}

// Sets the words of a year to zero: 138 of them, or all if fewer are lent.
pub fn clear(words: &mut [u64])
    ensures cleared { words.new ≡ cleared words.old }
{
    let end = words.len().min(WORDS);
    words[..end].fill(0);
}

// The first hour of a part of the year that has no value.
pub fn first_absent(words: &[u64], span: Span) -> Option<u16>
    ensures first { result ≡ first_absent (present words.now) span.first (span.end - span.first) }
{
    (span.first..span.end).find(|hour| !is_present(words, *hour))
}

// The ones among `n` bits of a word, from bit `low` on.
fn ones_from(word: u64, low: u32, n: u32) -> u32
    requires { low < 64 }
    ensures ones { result ≡ count_ones (word / 2 ^ low % 2 ^ n) }
    ensures at_most { result ≤ n }
{
    let shifted = word >> low;
    if n < 64 {
        (shifted % (1 << n)).count_ones()
    } else {
        shifted.count_ones()
    }
}

// How many hours of a part of the year have a value: the ones among its bits, a word at a time.
pub fn count_present(words: &[u64], span: Span) -> u16
    ensures count { result ≡ count (present words.now) span.first (span.end - span.first) }
{
    let mut total = 0;
    for i in span.first / 64..span.end.div_ceil(64) {
        let first = span.first.max(i * 64);
        let end = span.end.min(i * 64 + 64);
        let bits = word(words, usize::from(i));
        total += ones_from(bits, u32::from(first % 64), u32::from(end - first)) as u16;
    }
    total
}
