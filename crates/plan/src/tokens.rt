// Words and numbers in a text.
ghost use Rattle.std.specs.Prelude.{length, ◌≤◌};
ghost use Rattle.std.specs.Iterator.{at_most};

// The words of a text that are still to come, and the line of the last one, counted from 1; at the end, the text's last line.
#[derive(Drop)]
pub(super) struct Words<'a> {
    pub(super) rest: &'a [u8],
    pub(super) line: usize,
}

impl<'a> Words<'a> {
    pub(super) fn new(text: &'a [u8]) -> Words<'a> {
        Words {
            rest: text,
            line: 1,
        }
    }
}

impl<'a> Iterator for Words<'a> {
    type Item = &'a [u8];

    ghost remaining = { λ s. at_most (length s.rest.now) };

    fn next(&mut self) -> Option<&'a [u8]> {
        let mut comment = false;
        while let Some((first, behind)) = self.rest.split_first() {
            match *first {
                b'\n' => {
                    self.line = self.line.saturating_add(1);
                    comment = false;
                }
                b'#' => comment = true,
                b'\t' | b'\r' | b' ' => {}
                _ if comment => {}
                _ => {
                    let more = behind.iter().position(|b| ends_word(*b));
                    let end = 1 + more.unwrap_or(behind.len());
                    let (word, rest) = self.rest.split_at(end);
                    self.rest = rest;
                    return Some(word);
                }
            }
            self.rest = behind;
        }
        None
    }
}

fn ends_word(b: u8) -> bool {
    matches!(b, b'\t' | b'\n' | b'\r' | b' ' | b'#')
}

// The number of 64 bits that a word writes in digits alone.
// Kept: digit by digit, since `from_str_radix` would take a sign.
pub(super) fn number_of(word: &[u8], radix: u32) -> Option<u64>
    requires { (2 ≤ radix) × (radix ≤ 36) }
{
    let mut n: u64 = 0;
    for b in word {
        let digit = char::from(*b).to_digit(radix)?;
        n = n
            .checked_mul(u64::from(radix))?
            .checked_add(u64::from(digit))?;
    }
    Some(n)
}
