// Examples worked by hand: limits, bits at the ends of words, parts that end inside a word, flows and energies.
use super::{
    Flow, HourRecord, Totals, clear, count_present, drawn_energy, first_absent, highest,
    is_present, mark, part, part_totals, write_record,
};
use calendar::{Calendar, Span, Year};
use std::test::Fail;

#[cfg(test)]
fn value(active: i16, reactive: i16) -> HourRecord {
    HourRecord { active, reactive }
}

#[cfg(test)]
fn calendar() -> Result<Calendar, Fail> {
    let year = Year::new(2022).ok_or_else(|| Fail::new("2022 is served"))?;
    Ok(Calendar::new(year))
}

#[test]
fn values_beyond_the_limits_count_as_the_nearer_limit(rt: HostRuntime) {
    assert_eq!(rt; value(32_767, -32_768).limited(), value(32_000, -32_000));
    assert_eq!(rt; value(32_001, -32_001).limited(), value(32_000, -32_000));
    assert_eq!(rt; value(32_000, -32_000).limited(), value(32_000, -32_000));
    assert_eq!(rt; Flow::Drawn.of(value(32_767, 5)), 32_000);
    assert_eq!(rt; Flow::FedIn.of(value(-32_768, 5)), 32_000);
    assert_eq!(rt; Flow::FedIn.of(value(1, 5)), 0);
    assert_eq!(rt; Flow::ReactiveDrawn.of(value(1, 5)), 5);
    assert_eq!(rt; Flow::ReactiveFedIn.of(value(1, -1)), 1);
}

// Hour 8,783 is bit 15 of word 137.
#[test]
fn an_hour_is_one_bit(rt: HostRuntime) {
    let mut words = [0u64; 138];
    mark(&mut words, 0);
    mark(&mut words, 63);
    mark(&mut words, 64);
    mark(&mut words, 8783);
    mark(&mut words, 8832);
    assert_eq!(rt; words[0], 0x8000_0000_0000_0001);
    assert_eq!(rt; words[1], 1);
    assert_eq!(rt; words[136], 0);
    assert_eq!(rt; words[137], 0x8000);
    assert!(rt; is_present(&words, 63) && is_present(&words, 8783));
    assert!(rt;
        !is_present(&words, 62) && !is_present(&words, 8782) && !is_present(&words, 65_535)
    );
}

#[test]
fn a_year_of_words_is_cleared(rt: HostRuntime) {
    let mut words = [7u64; 140];
    clear(&mut words);
    assert_eq!(rt; words[0], 0);
    assert_eq!(rt; words[137], 0);
    assert_eq!(rt; words[138], 7);
    let mut few = [7u64; 3];
    clear(&mut few);
    assert_eq!(rt; few[2], 0);
}

// March 2022 is the 743 hours from 1,416 on, and both its ends lie inside a word. In words that are 0xAAAA.. every odd
// hour has a value: 371 of March's.
#[test]
fn present_hours_are_counted_by_their_bits(rt: HostRuntime) {
    let march = Span {
        first: 1416,
        end: 2159,
    };
    let full = [u64::MAX; 138];
    assert_eq!(rt; count_present(&full, march), 743);
    assert_eq!(rt;
        count_present(
            &full,
            Span {
                first: 0,
                end: 8784,
            },
        ),
        8784
    );
    assert_eq!(rt; first_absent(&full, march), None);
    let odd = [0xAAAA_AAAA_AAAA_AAAA; 138];
    assert_eq!(rt; count_present(&odd, march), 371);
    assert_eq!(rt; count_present(&odd, Span { first: 65, end: 70 }), 3);
    assert_eq!(rt;
        count_present(
            &odd,
            Span {
                first: 64,
                end: 128,
            },
        ),
        32
    );
    assert_eq!(rt; count_present(&odd, Span { first: 5, end: 5 }), 0);
    assert_eq!(rt; first_absent(&odd, march), Some(1416));
    assert_eq!(rt;
        first_absent(
            &odd,
            Span {
                first: 1417,
                end: 2159,
            },
        ),
        Some(1418)
    );
    assert_eq!(rt;
        first_absent(
            &full[0..1],
            Span {
                first: 0,
                end: 8760,
            },
        ),
        Some(64)
    );
}

// Hour 53 of 2022 begins at 05:00 on Monday 3 January, so 54 and 55 are peak-load hours and 53 is not.
#[test]
fn a_part_is_scanned_in_place(rt: HostRuntime) -> Result<(), Fail> {
    let mut records = [value(0, 0); 100];
    write_record(&mut records, 53, value(10, -7));
    write_record(&mut records, 54, value(20, 9));
    write_record(&mut records, 55, value(-5, -8));
    write_record(&mut records, 56, value(100, 100));
    write_record(&mut records, 100, value(1, 1));
    let early = Span { first: 53, end: 56 };
    assert_eq!(rt; part(&records, early).len(), 3);
    assert_eq!(rt;
        part(
            &records,
            Span {
                first: 90,
                end: 8760,
            },
        )
        .len(),
        10
    );
    assert_eq!(rt; highest(&records, early, Flow::Drawn), 20);
    assert_eq!(rt; highest(&records, early, Flow::FedIn), 5);
    assert_eq!(rt; highest(&records, early, Flow::ReactiveDrawn), 9);
    assert_eq!(rt; highest(&records, early, Flow::ReactiveFedIn), 8);
    assert_eq!(rt;
        highest(&records, Span { first: 0, end: 53 }, Flow::Drawn),
        0
    );
    let energy = drawn_energy(&records, early, &calendar()?);
    assert_eq!(rt; energy.peak_load, 20);
    assert_eq!(rt; energy.other, 10);
    Ok(())
}

// The same part as above.
#[test]
fn a_part_is_summed_in_one_pass(rt: HostRuntime) -> Result<(), Fail> {
    let mut records = [value(0, 0); 100];
    write_record(&mut records, 53, value(10, -7));
    write_record(&mut records, 54, value(20, 9));
    write_record(&mut records, 55, value(-5, -8));
    let early = Span { first: 53, end: 56 };
    assert_eq!(rt;
        part_totals(&records, early, &calendar()?),
        Totals {
            peak_load_kwh: 20,
            other_kwh: 10,
            drawn: 20,
            high_load: 20,
            reactive_drawn: 9,
            reactive_fed_in: 8,
        }
    );
    Ok(())
}
