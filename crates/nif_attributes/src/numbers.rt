//! Numbers in attributes.
ghost use Rattle.std.specs.Prelude.{◌≡◌, ℕ, ◌≤◌, IfSome};
ghost use Rattle.nif_attributes.specs.Texts.{decimal};

/// The number of one or more decimal digits, without sign or blanks, where it is at most `most`.
pub fn decimal(most: u32, text: &[u8]) -> Option<u32>
    ensures value { result ≡ decimal most text.now }
    ensures bound { IfSome result (λ n. n ≤ most) }
{
    if text.is_empty() {
        return None;
    }
    let mut number: u64 = 0;
    for digit in text {
        if !digit.is_ascii_digit() {
            return None;
        }
        number = number * 10 + u64::from(*digit - b'0');
        if number > u64::from(most) {
            return None;
        }
    }
    Some(number as u32)
}
