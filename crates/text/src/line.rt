// Lines, cut off the front of a text at the first CR or LF.
ghost use Rattle.std.specs.Prelude.{◌≡◌, length};
ghost use Rattle.text.specs.Cuts.{view_cut, cut_line, CutLong};

use crate::span::{Class, span};

// What is found at the front of a text. Three outcomes, and callers ask for each of them: `Result<Option<..>, usize>` would name none.
#[derive(Clone, Copy)]
pub enum Cut<'a> {
    // a line that CR LF ended, and what comes after these two
    Line(&'a [u8], &'a [u8]),
    // no CR or LF yet, or a CR as the last byte so far
    Short,
    // a CR or LF that ends no line, and where it stands
    Stray(usize),
}

// Cuts a line off the front.
pub fn cut_line<'a>(s: &'a [u8]) -> Cut<'a>
    ensures is { view_cut result ≡ cut_line s.now }
    ensures long { CutLong (length s.now) result }
{
    let n = span(s, Class::Line);
    if n >= s.len() {
        return Cut::Short;
    }
    if s[n] == b'\n' {
        return Cut::Stray(n);
    }
    if n + 1 >= s.len() {
        return Cut::Short;
    }
    if s[n + 1] != b'\n' {
        return Cut::Stray(n);
    }
    Cut::Line(&s[0..n], &s[n + 2..])
}
