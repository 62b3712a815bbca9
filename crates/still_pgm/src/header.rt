// The header of a binary PGM: P5, width, height and maximum, separated by blanks and comments, and one blank before the samples.
ghost use Rattle.std.specs.Prelude.{◌≡◌, option_map};
ghost use Rattle.still_pgm.specs.Header.{word_of, header_of};

use std::fmt;
use still_text::{numbers, text};

#[derive(Clone, Copy, Debug, PartialEq, Eq)]
pub struct Header {
    pub width: usize,
    pub height: usize,
    pub maximum: usize,
}

// As a file begins with it.
impl fmt::Display for Header {
    fn fmt<W: fmt::Write>(&self, f: &mut fmt::Formatter<W>) -> fmt::Result {
        let width = self.width;
        let height = self.height;
        let maximum = self.maximum;
        write!(f, "P5\n{width} {height}\n{maximum}\n")
    }
}

// A number behind one blank or more, and what is left behind it.
#[tactic(auto, using(crate::specs::HeaderLaws::word_at_once, crate::specs::HeaderLaws::word_none, crate::specs::HeaderLaws::word_some))]
fn word_of(file: &[u8]) -> Option<(usize, &[u8])>
    ensures { option_map (λ w. (w.0, w.1.now)) result ≡ word_of file.now }
{
    let rest = text::past_blanks(file);
    if rest.len() == file.len() {
        return None;
    }
    numbers::digits(rest)
}

// The header that a file begins with, and the bytes behind it.
pub fn header_of(file: &[u8]) -> Option<(Header, &[u8])>
    ensures { option_map (λ h. (h.0, h.1.now)) result ≡ header_of file.now }
{
    let rest = file.strip_prefix(b"P5")?;
    let (width, rest) = word_of(rest)?;
    let (height, rest) = word_of(rest)?;
    let (maximum, rest) = word_of(rest)?;
    let (blank, samples) = rest.split_first()?;
    if !text::is_blank(*blank) {
        return None;
    }
    let header = Header {
        width,
        height,
        maximum,
    };
    Some((header, samples))
}
