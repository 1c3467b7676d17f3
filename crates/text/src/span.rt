// How far bytes of one class go.
ghost use Rattle.std.specs.Prelude.{◌≡◌, ◌≤◌, length};
ghost use Rattle.std.specs.List.{prefix_len};
ghost use Rattle.text.specs.Marks.{before};
ghost use Rattle.text.specs.Spans.{in_class};

use crate::kind::{Kind, kind_of};
use crate::value::is_blank;

// Classes are values and no closures: contracts name each, and a closure would have to be told again at every call.
#[derive(Clone, Copy)]
pub enum Class {
    // A to Z
    Upper,
    // of a field's name
    Name,
    // of a field's value
    Value,
    // space and tab
    Blank,
    // of a query
    Query,
    // any byte but CR and LF
    Line,
}

impl Class {
    // Whether a byte is of the class.
    pub fn has(self, b: u8) -> bool
        ensures { result ≡ in_class self b }
    {
        match self {
            Class::Upper => b.is_ascii_uppercase(),
            Class::Name => kind_of(b).is_name(),
            Class::Value => kind_of(b).is_visible() || is_blank(b),
            Class::Blank => is_blank(b),
            Class::Query => kind_of(b).is_query(),
            Class::Line => b != b'\r' && b != b'\n',
        }
    }
}

// How many bytes of the class stand in front.
pub fn span(s: &[u8], class: Class) -> usize
    ensures is { result ≡ prefix_len (in_class class) s.now }
    ensures within { result ≤ length s.now }
{
    s.iter().take_while(|b| class.has(**b)).count()
}

// How many bytes stand before the first `mark`; all of them where there is none.
pub fn span_before(s: &[u8], mark: u8) -> usize
    ensures is { result ≡ before mark s.now }
    ensures within { result ≤ length s.now }
{
    s.iter().take_while(|b| **b != mark).count()
}
