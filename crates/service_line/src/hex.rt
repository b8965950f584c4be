// Hexadecimal digits: 0 to 9 and A to F.
ghost use Rattle.std.specs.Prelude.{◌≡◌, ◌<◌};
ghost use Rattle.service_line.specs.Hex.{digit_of, value_of};

// The value of a digit; `char::to_digit` takes lower case too.
pub(crate) fn digit_value(c: u8) -> Option<u8>
    ensures value { result ≡ value_of c }
{
    match c {
        b'0'..=b'9' => Some(c - b'0'),
        b'A'..=b'F' => Some(c - b'A' + 10),
        _ => None,
    }
}

// The digit of a value below 16; `char::from_digit` gives lower case.
pub(crate) fn digit(value: u8) -> u8
    requires { value < 16 }
    ensures digit { result ≡ digit_of value }
{
    if value < 10 {
        b'0' + value
    } else {
        b'A' + (value - 10)
    }
}
