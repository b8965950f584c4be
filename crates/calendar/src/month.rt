// A month of the year, by its number, and its name.
ghost use Rattle.std.specs.Prelude.{◌≡◌, ◌≤◌, Some};
ghost use Rattle.std.specs.Option.{option_map};
ghost use Rattle.std.specs.Fmt.{padded};
ghost use Rattle.calendar.specs.Names.{month_name};
ghost use Rattle.calendar.specs.Years.{is_month, provided};

use std::fmt;

#[derive(Clone, Copy, PartialEq, Eq, PartialOrd, Ord, Hash, Debug)]
pub struct Month {
    pub number: u8,
    ghost from: { 1 ≤ number },
    ghost to: { number ≤ 12 },
}

impl Month {
    // An error type would say no more than `None`, and one type for both ranges would lose the names Year and Month.
    pub fn new(number: u8) -> Option<Month>
        ensures months_only { option_map (λ m. m.number) result ≡ provided (is_month number) number }
    {
        if (1..=12).contains(&number) {
            Some(Month { number })
        } else {
            None
        }
    }

    fn name(self) -> &'static str
        ensures { result.now ≡ month_name self.number }
    {
        NAMES[self.number as usize - 1]
    }
}

const NAMES: [&str; 12] = [
    "January",
    "February",
    "March",
    "April",
    "May",
    "June",
    "July",
    "August",
    "September",
    "October",
    "November",
    "December",
];

impl fmt::Display for Month {
    ghost output = { λ m. Some (month_name m.number) };

    ghost styled_output = { λ m spec. Some (padded spec (month_name m.number)) };

    fn fmt<W: fmt::Write>(&self, f: &mut fmt::Formatter<W>) -> fmt::Result {
        f.pad(self.name())
    }
}
