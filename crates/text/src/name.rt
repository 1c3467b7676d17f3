// Names, compared as they are and without regard to the case of letters, and written in lower case.
ghost use Rattle.std.specs.Prelude.{◌≡◌};
ghost use Rattle.text.specs.Bytes.{lower, lowered, same, same_no_case, Wrote};

use crate::output::put;

// A letter in lower case; any other byte as it is.
pub fn lower_byte(b: u8) -> u8
    ensures { result ≡ lower b }
{
    b.to_ascii_lowercase()
}

// Whether two texts are the same. The one place where `==` of slices, which the library tells by pairs of bytes, gets the word that contracts use.
pub fn eq(a: &[u8], b: &[u8]) -> bool
    ensures { result ≡ same a.now b.now }
{
    a == b
}

// Whether two texts are the same but for the case of letters.
pub fn eq_ignore_case(a: &[u8], b: &[u8]) -> bool
    ensures { result ≡ same_no_case a.now b.now }
{
    a.eq_ignore_ascii_case(b)
}

// Writes the name in lower case, as far as there is room.
pub fn put_lower(out: &mut [u8], name: &[u8]) -> usize
    ensures { Wrote (lowered name.now) out.old out.new result }
{
    let n = put(out, name);
    out[..n].make_ascii_lowercase();
    n
}
