// The words of a head: which bytes each is made of.
ghost use Rattle.std.specs.Prelude.{◌≡◌, ◌&&◌};
ghost use Rattle.text.specs.Bytes.{all, nonempty};
ghost use Rattle.forgiving.specs.Parts.{allowed};

use text::kind::kind_of;
use text::span::Class;

// Values and no closures, since contracts name each.
#[derive(Clone, Copy)]
pub(crate) enum Word {
    // capital letters
    Method,
    // visible bytes
    Target,
    // letters, digits and hyphens
    Name,
    // visible bytes and blanks
    Value,
}

impl Word {
    fn allows(self, b: u8) -> bool
        ensures { result ≡ allowed self b }
    {
        match self {
            Word::Method => Class::Upper.has(b),
            Word::Target => kind_of(b).is_visible(),
            Word::Name => Class::Name.has(b),
            Word::Value => Class::Value.has(b),
        }
    }

    // Whether a text has no other bytes.
    pub(crate) fn spans(self, t: &[u8]) -> bool
        ensures { result ≡ all (allowed self) t.now }
    {
        t.iter().all(|b| self.allows(*b))
    }

    // Whether it has some bytes, and no other.
    pub(crate) fn is(self, t: &[u8]) -> bool
        ensures { result ≡ (nonempty t.now && all (allowed self) t.now) }
    {
        !t.is_empty() && self.spans(t)
    }
}
