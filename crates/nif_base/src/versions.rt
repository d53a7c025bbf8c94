//! Version numbers and their texts.
ghost use Rattle.std.specs.Prelude.{◌≡◌, ℕ, ◌+◌, ◌<◌, ◌≤◌, ◌↔◌, List, [], ◌∷◌, length, Option, Some, None, IsTrue, MatchOption, ◌==◌, position};
ghost use Rattle.std.specs.Option.{option_map};
ghost use Rattle.std.specs.Int.{to_be_bytes, w32};
ghost use Rattle.nif_base.specs.Version.{part_of, pieces_of, version_of, IsInside};

/// A version of the format. Its four parts are the bytes of the number, the first the highest: 20.2.0.7 is
/// 0x14020007.
#[derive(Debug, Clone, Copy, PartialEq, Eq, PartialOrd, Ord, Hash)]
pub struct Version {
    pub number: u32,
}

impl Version {
    /// The version of a text of one to four parts with one dot between two of them. A part is one to three decimal
    /// digits of a value of at most 255; a missing part is 0. Every other text is no version.
    pub fn parse(text: &[u8]) -> Option<Version>
        ensures { option_map (λ version. version.number) result ≡ version_of text.now }
    {
        let mut parts = [0; 4];
        let mut count = 0;
        let mut rest = Some(text);
        while let Some(text) = rest {
            if count == 4 {
                return None;
            }
            let (first, behind) = cut(text);
            parts[count] = part(first)?;
            count += 1;
            rest = behind;
        }
        Some(Version {
            number: u32::from_be_bytes(parts),
        })
    }

    /// The four parts, the first the highest byte of the number.
    pub fn parts(self) -> [u8; 4]
        ensures { result ≡ to_be_bytes w32 self.number }
    {
        self.number.to_be_bytes()
    }

    /// Whether it is at least `since` and at most `until`, each where it is given.
    pub fn inside(self, since: Option<Version>, until: Option<Version>) -> bool
        ensures { IsTrue result ↔ IsInside self.number (option_map (λ first. first.number) since)
            (option_map (λ last. last.number) until) }
    {
        since.is_none_or(|first| first.number <= self.number)
            && until.is_none_or(|last| self.number <= last.number)
    }
}

/// The bytes before the first dot, and those behind it where there is one.
fn cut(text: &[u8]) -> (&[u8], Option<&[u8]>)
    ensures parts { MatchOption result.1 (pieces_of text.now ≡ result.0.now ∷ [])
        (λ behind. pieces_of text.now ≡ result.0.now ∷ pieces_of behind.now) }
    ensures less { MatchOption result.1 (length result.0.now ≡ length text.now)
        (λ behind. length behind.now < length text.now) }
{
    match first_dot(text) {
        Some(dot) => (&text[..dot], Some(&text[dot + 1..])),
        None => (text, None),
    }
}

/// The place of the first dot.
fn first_dot(text: &[u8]) -> Option<usize>
    ensures { result ≡ position (λ c. c == 46) text.now }
{
    text.iter().position(|c| *c == b'.')
}

/// The value of a part.
#[tactic(auto, unfolding(crate::specs::Version::part_of))]
fn part(digits: &[u8]) -> Option<u8>
    ensures { result ≡ part_of digits.now }
{
    if digits.is_empty() || digits.len() > 3 {
        return None;
    }
    let mut value = 0;
    for digit in digits {
        if !digit.is_ascii_digit() {
            return None;
        }
        value = value * 10 + u32::from(*digit - b'0');
    }
    u8::try_from(value).ok()
}
