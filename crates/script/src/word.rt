// The words that a setting is made of: which bytes each has, and how many. The bytes of one word are looked at once, in one pass.
ghost use Rattle.std.specs.Prelude.{◌≡◌, length};
ghost use Rattle.script.specs.Words.{allows, fits, good_word};

use text::kind::kind_of;

// Values and no closures, since contracts name each.
#[derive(Clone, Copy)]
pub enum Word {
    // a server's name
    Name,
    // one method of a rule
    Method,
    // one part of a rule's path
    Part,
}

impl Word {
    fn allows(self, b: u8) -> bool
        ensures { result ≡ allows self b }
    {
        match self {
            Word::Name => kind_of(b).is_host(),
            Word::Method => matches!(b, b'A'..=b'Z'),
            Word::Part => kind_of(b).is_rule(),
        }
    }

    fn fits(self, n: usize) -> bool
        ensures { result ≡ fits self n }
    {
        match self {
            Word::Name => matches!(n, 1..=253),
            Word::Method => matches!(n, 1..=16),
            Word::Part => n >= 1,
        }
    }

    // Whether a text is such a word.
    pub fn is(self, t: &[u8]) -> bool
        ensures { result ≡ good_word self t.now }
    {
        self.fits(t.len()) && t.iter().all(|b| self.allows(*b))
    }
}
