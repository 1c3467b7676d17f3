// How the fields of a head say where the body ends: by a length, or in chunks. Of all such fields together there is at most one.
ghost use Rattle.std.specs.Prelude.{◌≡◌, None};
ghost use Rattle.message.specs.Framing.{says_of, said_with, framed};
ghost use Rattle.message.specs.Sent.{view_line, view_lines};

use crate::fault::{Fault, Flaw};
use crate::sent::Line;
use text::name::eq_ignore_case;
use text::numeral::{Base, read_number};

#[derive(Clone, Copy)]
pub enum Size {
    Length(usize),
    Chunked,
}

// What a head says of its body, and where the line and the value that say it begin.
#[derive(Clone, Copy)]
pub struct Said {
    pub size: Size,
    pub at: usize,
    pub value_at: usize,
}

// A length that is no number, or an encoding other than `chunked`.
#[derive(Clone, Copy)]
pub struct Nonsense;

impl Line<'_> {
    // What it says of the body: nothing, how long it is, or nonsense.
    fn says(&self) -> Result<Option<Size>, Nonsense>
        ensures { result ≡ says_of (view_line self.now) }
    {
        let field = self.field;
        if eq_ignore_case(field.name, b"content-length") {
            let n = read_number(field.value, Base::Decimal).ok_or(Nonsense)?;
            return Ok(Some(Size::Length(n)));
        }
        if !eq_ignore_case(field.name, b"transfer-encoding") {
            return Ok(None);
        }
        if eq_ignore_case(field.value, b"chunked") {
            Ok(Some(Size::Chunked))
        } else {
            Err(Nonsense)
        }
    }

    // What is said of the body with this field, after what was said before it.
    fn say_with(&self, said: Option<Said>) -> Result<Option<Said>, Flaw>
        ensures { result ≡ said_with said (view_line self.now) }
    {
        match (self.says(), said) {
            (Ok(None), _) => Ok(said),
            (_, Some(_)) => Err(Fault::Framing.at(self.at)),
            (Err(Nonsense), None) => Err(Fault::Framing.at(self.value_at)),
            (Ok(Some(size)), None) => Ok(Some(Said {
                size,
                at: self.at,
                value_at: self.value_at,
            })),
        }
    }
}

// What the fields of a head say of its body.
pub fn framing(lines: &[Line]) -> Result<Option<Said>, Flaw>
    ensures { result ≡ framed None (view_lines lines.now) }
{
    let mut said: Option<Said> = None;
    for line in lines {
        said = line.say_with(said)?;
    }
    Ok(said)
}
