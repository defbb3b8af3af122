// The text of a script: its lines, the fields of a line, and numbers.
ghost use Rattle.script.specs.Text.{before, behind, lines_of, number_of};
ghost use Rattle.std.specs.Iterator.{YieldsFirstRef, item_count};
ghost use Rattle.std.specs.Option.{option_map};
ghost use Rattle.std.specs.Prelude.{◌≡◌};

const NEWLINE: u8 = b'\n';

const MOST_DIGITS: usize = 5;

/// What stands before the first separator, and what stands behind it, if there is one.
pub fn cut(text: &[u8], separator: u8) -> (&[u8], Option<&[u8]>)
    ensures front { result.0.now ≡ before separator text.now }
    ensures rest { option_map (λ x. x.now) result.1 ≡ behind separator text.now }
{
    match text.iter().position(|b| *b == separator) {
        Some(at) => (&text[..at], Some(&text[at + 1..])),
        None => (text, None),
    }
}

/// The lines of a text, each ended by a newline, which the last may lack. No line begins behind the
/// last newline.
#[derive(Clone, Copy, Debug)]
pub struct Lines<'a> {
    /// The text that is left.
    pub rest: &'a [u8],
}

impl<'a> Iterator for Lines<'a> {
    type Item = &'a [u8];

    ghost next_gives = { YieldsFirstRef (λ s. lines_of s.rest.now) };

    ghost remaining = { item_count (λ s. lines_of s.rest.now) };

    fn next(&mut self) -> Option<&'a [u8]> {
        if self.rest.is_empty() {
            return None;
        }
        let (line, others) = cut(self.rest, NEWLINE);
        self.rest = others.unwrap_or(&[]);
        Some(line)
    }
}

/// The number that a field writes, if it writes one: 1 to 5 digits, at most 65,535.
pub fn number(text: &[u8]) -> Option<u16>
    ensures { result ≡ number_of text.now }
{
    if text.is_empty() || text.len() > MOST_DIGITS {
        return None;
    }
    let mut value = 0u32;
    for b in text {
        if !b.is_ascii_digit() {
            return None;
        }
        value = value * 10 + u32::from(*b - b'0');
    }
    u16::try_from(value).ok()
}
