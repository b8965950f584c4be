// How a year is read.
ghost use Rattle.std.specs.Prelude.{◌≡◌, ◌-◌, ◌≤◌, IfSome};
ghost use Rattle.std.specs.Option.{option_map};
ghost use Rattle.calendar.specs.Years.{provided};
ghost use Rattle.calendar_sheet.specs.Written.{is_digit, year_written};

use calendar::Year;

// A year of four digits, or none. `parse` would take "+202" too.
pub(crate) fn read_year(text: &[u8]) -> Option<Year>
    ensures read { option_map (λ y. y.number) result ≡ year_written text.now }
{
    let [a, b, c, d] = text else {
        return None;
    };
    Year::new(1000 * digit(*a)? + 100 * digit(*b)? + 10 * digit(*c)? + digit(*d)?)
}

// The value of a digit, or none. `to_digit` is asked of a char and gives a u32, which is two conversions more.
fn digit(byte: u8) -> Option<u16>
    ensures value { result ≡ provided (is_digit byte) (byte - 48) }
    ensures few { IfSome result (λ v. v ≤ 9) }
{
    if byte.is_ascii_digit() {
        Some((byte - b'0') as u16)
    } else {
        None
    }
}
