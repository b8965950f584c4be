// Bytes as they are printed.
ghost use Rattle.std.specs.Prelude.{◌≡◌, ◌&&◌, nat_le, if◌then◌else◌};

// What is no printable character of ASCII is shown as a dot.
pub fn printable(byte: u8) -> char
    ensures { result ≡ (if nat_le 32 byte && nat_le byte 126 then byte else 46) }
{
    match byte {
        b' '..=b'~' => char::from(byte),
        _ => '.',
    }
}
