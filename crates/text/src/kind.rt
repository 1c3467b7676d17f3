// The kinds of byte, told apart by one match, and the sets that the rules name as unions of kinds.
ghost use Rattle.std.specs.Prelude.{◌≡◌};
ghost use Rattle.text.specs.Kinds.{kind_of, sets_of, sets_at};

#[derive(Clone, Copy)]
pub enum Kind {
    // A to Z
    Upper,
    // a to z
    Lower,
    // 0 to 9
    Digit,
    Hyphen,
    Dot,
    // the other bytes that stand for themselves in a path: _ ~ ! $ & ' ( ) * + , = : @
    Mark,
    Percent,
    Slash,
    Question,
    Hash,
    // any other visible byte
    Symbol,
    // space and tab
    Blank,
    Cr,
    Lf,
    // the other control bytes, 127 and all above
    Other,
}

// The kind of a byte.
pub fn kind_of(b: u8) -> Kind
    ensures is { result ≡ kind_of b }
    ensures sets { sets_of result ≡ sets_at b }
{
    match b {
        b'A'..=b'Z' => Kind::Upper,
        b'a'..=b'z' => Kind::Lower,
        b'0'..=b'9' => Kind::Digit,
        b'-' => Kind::Hyphen,
        b'.' => Kind::Dot,
        b'_' | b'~' | b'!' | b'$' | b'&'..=b',' | b'=' | b':' | b'@' => Kind::Mark,
        b'%' => Kind::Percent,
        b'/' => Kind::Slash,
        b'?' => Kind::Question,
        b'#' => Kind::Hash,
        b'!'..=b'~' => Kind::Symbol,
        b' ' | b'\t' => Kind::Blank,
        b'\r' => Kind::Cr,
        b'\n' => Kind::Lf,
        _ => Kind::Other,
    }
}

impl Kind {
    // Of a field's name: letters, digits, the hyphen.
    pub fn is_name(self) -> bool
        ensures { result ≡ (sets_of self).name }
    {
        matches!(self, Kind::Upper | Kind::Lower | Kind::Digit | Kind::Hyphen)
    }

    // Of a server's name: those and the dot.
    pub fn is_host(self) -> bool
        ensures { result ≡ (sets_of self).host }
    {
        self.is_name() || matches!(self, Kind::Dot)
    }

    // Of a path, as it stands.
    pub fn is_plain(self) -> bool
        ensures { result ≡ (sets_of self).plain }
    {
        self.is_host() || matches!(self, Kind::Mark)
    }

    // Of a rule's path: plain, and no capital.
    pub fn is_rule(self) -> bool
        ensures { result ≡ (sets_of self).rule }
    {
        self.is_plain() && !matches!(self, Kind::Upper)
    }

    // Of a query: visible, and not `#`.
    pub fn is_query(self) -> bool
        ensures { result ≡ (sets_of self).query }
    {
        self.is_visible() && !matches!(self, Kind::Hash)
    }

    // Visible ASCII.
    pub fn is_visible(self) -> bool
        ensures { result ≡ (sets_of self).visible }
    {
        !matches!(self, Kind::Blank | Kind::Cr | Kind::Lf | Kind::Other)
    }
}
