// A year that the calendar serves, and its Easter.
ghost use Rattle.std.specs.Prelude.{◌≡◌, ◌≤◌};
ghost use Rattle.std.specs.Option.{option_map};
ghost use Rattle.calendar.specs.Years.{served, provided};
ghost use Rattle.calendar.specs.Easter.{easter};

use crate::easter::entry;

#[derive(Clone, Copy, PartialEq, Eq, PartialOrd, Ord, Hash, Debug)]
pub struct Year {
    pub number: u16,
    ghost from: { 2002 ≤ number },
    ghost to: { number ≤ 2299 },
}

impl Year {
    // An error type would say no more than `None`, and one type for both ranges would lose the names Year and Month.
    pub fn new(number: u16) -> Option<Year>
        ensures served_only { option_map (λ y. y.number) result ≡ provided (served number) number }
    {
        if (2002..=2299).contains(&number) {
            Some(Year { number })
        } else {
            None
        }
    }

    // Easter Sunday, in days after 22 March.
    pub fn easter(self) -> u16
        ensures computus { result ≡ easter self.number }
        ensures at_most { result ≤ 34 }
    {
        entry((self.number - 2002) as usize)
    }
}
