// The head of a request, judged as far as it has come: its first line, its field lines one by one, and then the whole of it for the server and
// the body. Nothing is kept of it here but lengths: the bytes stay where they were lent.
ghost use Rattle.std.specs.Prelude.{◌≡◌, length};
ghost use Rattle.text.specs.Cuts.{cut_line};
ghost use Rattle.message.specs.Sent.{view_lines};
ghost use Rattle.request.specs.Hosts.{names_of};
ghost use Rattle.request.specs.Heads.{due_of, judged_fields, unended_at, unlined, judged, Sound};

use crate::canonical::carries_body;
use crate::first::check_first;
use crate::host::find_server;
use message::body::Due;
use message::fault::{Fault, Flaw};
use message::framing::{Said, framing};
use message::sent::{Fields, Line, read_fields, table};
use text::line::{Cut, cut_line};

// A head has so many bytes to end in.
pub const WINDOW: usize = 20480;

// Where the parts of a head lie: the method first, the target behind the space after it, the fields from `fields` on, and all of it in `len`
// bytes; and the server that it asks for, counted from 0.
#[derive(Clone, Copy)]
pub struct Head {
    pub len: usize,
    pub method: usize,
    pub target: usize,
    pub fields: usize,
    pub server: usize,
}

// A head that is let pass, and the body that it says.
#[derive(Clone, Copy)]
pub struct Judged {
    pub head: Head,
    pub due: Due,
}

// What is due of a body, by the method and by what the fields say of it; the head has `len` bytes.
fn body_due(carries: bool, said: Option<Said>, len: usize) -> Result<Due, Flaw>
    ensures { result ≡ due_of carries said len }
{
    match said {
        None if carries => Err(Fault::BodyUnfit.at(len.saturating_sub(2))),
        None => Ok(Due::Length(0)),
        Some(said) if carries => Due::new(said, len),
        Some(said) => Err(Fault::BodyUnfit.at(said.at)),
    }
}

// The whole head: the server, the framing, the body.
fn judge_fields(
    method: &[u8],
    lines: &[Line],
    len: usize,
    servers: &[&[u8]],
) -> Result<(usize, Due), Flaw>
    ensures { result ≡ judged_fields (names_of servers.now) method.now (view_lines lines.now) len }
{
    let server = find_server(lines, servers, len.saturating_sub(2))?;
    let said = framing(lines)?;
    let due = body_due(carries_body(method), said, len)?;
    Ok((server, due))
}

// A head that has not ended in the first `len` bytes: more is wanted as long as there is more of the window.
#[tactic(auto, unfolding(crate::specs::Heads::window))]
fn unended(len: usize) -> Result<Option<Judged>, Flaw>
    ensures { result ≡ unended_at len }
{
    if len < WINDOW {
        return Ok(None);
    }
    Err(Fault::TooLong.at(WINDOW))
}

// Bytes in which the first line has not ended: it is judged where it has a stray byte.
fn judge_unended(window: &[u8]) -> Result<Option<Judged>, Flaw>
    ensures { result ≡ unlined window.now (cut_line window.now) }
{
    let Cut::Stray(n) = cut_line(window) else {
        return unended(window.len());
    };
    check_first(&window[0..n], false)?;
    Ok(None)
}

// Judges the first bytes of a request: a head that is let pass, or that more is wanted, or the first fault.
pub fn judge_head(window: &[u8], servers: &[&[u8]]) -> Result<Option<Judged>, Flaw>
    ensures is { result ≡ judged (names_of servers.now) window.now }
    ensures sound { Sound (length window.now) result }
{
    let Cut::Line(line, _) = cut_line(window) else {
        return judge_unended(window);
    };
    let first = check_first(line, true)?;
    let fields = line.len() + 2;
    let mut table = table();
    let Some(Fields { lines, end: len }) = read_fields(window, fields, &mut table)? else {
        return unended(window.len());
    };
    let method = first.method;
    let (server, due) = judge_fields(&line[0..method], lines, len, servers)?;
    let head = Head {
        len,
        method,
        target: first.target,
        fields,
        server,
    };
    Ok(Some(Judged { head, due }))
}
