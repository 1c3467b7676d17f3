// The first line of a response, and what its status says of what follows.
ghost use Rattle.std.specs.Prelude.{◌≡◌};
ghost use Rattle.std.specs.List.{list_all};
ghost use Rattle.response.specs.Status.{phrase_byte, status_of, is_last, has_body};

use text::mark::after;
use text::name::eq;
use text::numeral::{Base, read_number};

// A status, 100 to 599.
#[derive(Clone, Copy)]
pub struct Status {
    pub code: usize,
}

// Whether a phrase has visible bytes and spaces only.
fn is_phrase(text: &[u8]) -> bool
    ensures { result ≡ list_all phrase_byte text.now }
{
    text.iter().all(|byte| matches!(byte, b' '..=b'~'))
}

// The status that a line without its end says; none where it is no first line of a response.
pub fn read_status(line: &[u8]) -> Option<Status>
    ensures { result ≡ status_of line.now }
{
    let rest = after(line, b"HTTP/1.1 ")?;
    let (digits, rest) = rest.split_at_checked(3)?;
    let code = read_number(digits, Base::Decimal)?;
    let phrase = after(rest, b" ")?;
    if (100..=599).contains(&code) && is_phrase(phrase) {
        Some(Status { code })
    } else {
        None
    }
}

impl Status {
    // Whether no other response to the same request follows.
    pub fn is_last(self) -> bool
        ensures { result ≡ is_last self }
    {
        self.code >= 200 || self.code == 101
    }

    // Whether a body follows the head of a response to a request of this method.
    pub fn has_body(self, method: &[u8]) -> bool
        ensures { result ≡ has_body self method.now }
    {
        !eq(method, b"HEAD") && self.code >= 200 && !matches!(self.code, 204 | 304)
    }
}
