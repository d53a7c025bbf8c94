//! Kinds of ASCII bytes, and what digits stand for.
ghost use Rattle.std.specs.Prelude.{◌≡◌, ◌<◌, IsTrue};
ghost use Rattle.nif_base.specs.Ascii.{is_blank, is_digit, is_hex_digit, digit_value};

/// Whether a byte is a blank: a space, a tab, a line feed or a carriage return.
pub fn is_blank(byte: u8) -> bool
    ensures { result ≡ is_blank byte }
{
    byte == b' ' || byte == b'\t' || byte == b'\n' || byte == b'\r'
}

/// Whether a byte is a decimal digit.
pub fn is_digit(byte: u8) -> bool
    ensures { result ≡ is_digit byte }
{
    byte >= b'0' && byte <= b'9'
}

/// Whether a byte is a digit of base 16, of either case.
pub fn is_hex_digit(byte: u8) -> bool
    ensures { result ≡ is_hex_digit byte }
{
    is_digit(byte) || (byte >= b'a' && byte <= b'f') || (byte >= b'A' && byte <= b'F')
}

/// What a digit of base 10 or 16 stands for.
pub fn digit_value(byte: u8) -> u8
    ensures value { result ≡ digit_value byte }
    ensures decimal { IsTrue (is_digit byte) → result < 10 }
    ensures hexadecimal { IsTrue (is_hex_digit byte) → result < 16 }
{
    match byte {
        b'a'.. => byte - (b'a' - 10),
        b'A'.. => byte - (b'A' - 10),
        _ => byte.saturating_sub(b'0'),
    }
}
