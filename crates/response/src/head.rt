// The head of a response, judged as far as it has come: its first line, its field lines one by one, and what it says of the body.
ghost use Rattle.std.specs.Prelude.{◌≡◌, length};
ghost use Rattle.message.specs.Sent.{view_lines};
ghost use Rattle.response.specs.Heads.{due_of, unended_at, judged, Sound};

use crate::status::{Status, read_status};
use message::body::Due;
use message::fault::Flaw;
use message::framing::framing;
use message::sent::{Fields, Line, read_fields, table};
use request::head::WINDOW;
use text::line::{Cut, cut_line};

// Where the parts of a head lie: the first line has `line` bytes without its end, the fields begin behind that, and all of it has `len`; its status,
// and whether a body follows.
#[derive(Clone, Copy)]
pub struct Head {
    pub status: Status,
    pub bodied: bool,
    pub line: usize,
    pub len: usize,
}

// A head, and what is due of the body.
#[derive(Clone, Copy)]
pub struct Judged {
    pub head: Head,
    pub due: Due,
}

// The bytes are no response. What is wrong with them is of no use to the client who waits.
#[derive(Clone, Copy)]
pub struct Unreadable;

impl From<Flaw> for Unreadable {
    ghost use Rattle.std.specs.Prelude.{◌≡◌};

    ghost from_gives = { λ flaw unreadable. unreadable ≡ record {} };

    fn from(_flaw: Flaw) -> Unreadable {
        Unreadable
    }
}

// What is due of a body, by what the fields of a head say, where one follows. Its places are not asked for.
fn body_due(bodied: bool, lines: &[Line]) -> Result<Due, Unreadable>
    ensures { result ≡ due_of bodied (view_lines lines.now) }
{
    if !bodied {
        return Ok(Due::Length(0));
    }
    let said = framing(lines)?.ok_or(Unreadable)?;
    Ok(Due::new(said, 0)?)
}

// A head that has not ended in the first `len` bytes: more is wanted as long as there is more of the window.
#[tactic(auto, unfolding(request::specs::Heads::window))]
fn unended(len: usize) -> Result<Option<Judged>, Unreadable>
    ensures { result ≡ unended_at len }
{
    if len < WINDOW {
        return Ok(None);
    }
    Err(Unreadable)
}

// Judges the first bytes of a response to a request of this method: a head, or that more is wanted.
pub fn judge_head(window: &[u8], method: &[u8]) -> Result<Option<Judged>, Unreadable>
    ensures is { result ≡ judged method.now window.now }
    ensures sound { Sound (length window.now) result }
{
    let line = match cut_line(window) {
        Cut::Line(line, _) => line,
        Cut::Short => return unended(window.len()),
        Cut::Stray(_) => return Err(Unreadable),
    };
    let status = read_status(line).ok_or(Unreadable)?;
    let mut table = table();
    let Some(Fields { lines, end: len }) = read_fields(window, line.len() + 2, &mut table)? else {
        return unended(window.len());
    };
    let bodied = status.has_body(method);
    let due = body_due(bodied, lines)?;
    let head = Head {
        status,
        bodied,
        line: line.len(),
        len,
    };
    Ok(Some(Judged { head, due }))
}
