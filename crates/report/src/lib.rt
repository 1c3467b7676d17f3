// What is found in a client's bytes, told as lines of text. Text grows at its end, part by part; where memory is wanting, it is cut back to what
// it was.
#![tactic(auto)]

ghost use Rattle.std.specs.Prelude.{◌≡◌};
ghost use Rattle.text.specs.Bytes.{Text};
ghost use Rattle.text.specs.Numerals.{decimal};
ghost use Rattle.message.specs.Fields.{line_of, field_lines};
ghost use Rattle.message.specs.SentViews.{view_sent_field, view_sent_fields};
ghost use Rattle.request.specs.Canonical.{first_line, length_field};
ghost use Rattle.request.specs.Found.{view_finding, fault, passed};
ghost use Rattle.request.specs.SentWriting.{view_sent_request};
ghost use Rattle.report.specs.Growth.{Added, Appended};
ghost use Rattle.report.specs.Report.{indented_line, indented, hexadecimal, body_hex, body_line, request_lines, told};

#[cfg(test)]
mod tests;

use message::fault::Flaw;
use message::field::FieldLine;
use message::sent_field::SentField;
use request::canonical::carries_body;
use request::found::Found;
use request::sent::SentRequest;
use std::alloc::AllocError;
use text::numeral::{Base, hex_digits, write_number};

// What can be told as lines of text.
pub trait Told {
    // the lines
    ghost lines: { Self → Text };

    // Adds the lines to `text`; where memory is wanting, some of them.
    fn add_to(&self, text: &mut Vec<u8>) -> Result<(), AllocError>
        ensures { Added (lines self.now) text.old.items text.new.items result };
}

// Appends the lines of what is told to `text`. Where memory is wanting, `text` is left as it was.
pub fn tell<T: Told>(what: &T, text: &mut Vec<u8>) -> Result<(), AllocError>
    ensures { Appended (T.lines what.now) text.old.items text.new.items result }
{
    let start = text.len();
    let result = what.add_to(text);
    if result.is_err() {
        text.truncate(start);
    }
    result
}

// What was found in a client's bytes.
impl Told for Found<'_, '_> {
    ghost lines = { λ found. told (view_finding found) };

    fn add_to(&self, text: &mut Vec<u8>) -> Result<(), AllocError> {
        match self {
            Found::Request(server, request) => add_passed(*server, request, text),
            Found::Fault(flaw) => add_fault(*flaw, text),
            Found::More => text.extend_from_slice(b"more\n"),
        }
    }
}

// A canonical request: its head, without the empty line, and its body; each line after two spaces.
impl Told for SentRequest<'_, '_> {
    ghost lines = { λ request. request_lines (view_sent_request request) };

    fn add_to(&self, text: &mut Vec<u8>) -> Result<(), AllocError> {
        add_first(self.method, self.target, text)?;
        add_fields(self.fields, text)?;
        if carries_body(self.method) {
            add_length(self.body, text)?;
            add_body(self.body, text)?;
        }
        Ok(())
    }
}

// The parts follow, each added to the text that is lent. A struct around the text would hold that loan, which each contract would then speak of.
pub fn add_number(number: usize, text: &mut Vec<u8>) -> Result<(), AllocError>
    ensures { Added (decimal number) text.old.items text.new.items result }
{
    let mut digits = [0; 20];
    text.extend_from_slice(write_number(&mut digits, number, Base::Decimal))
}

fn add_first(method: &[u8], target: &[u8], text: &mut Vec<u8>) -> Result<(), AllocError>
    ensures { Added (indented_line (first_line method.now target.now)) text.old.items text.new.items result }
{
    text.extend_from_slice(b"  ")?;
    text.extend_from_slice(method)?;
    text.extend_from_slice(b" ")?;
    text.extend_from_slice(target)?;
    text.extend_from_slice(b" HTTP/1.1\n")
}

// Adds the line of a field, in canonical form. There is room for all but its CR LF, which is not written.
fn add_line(field: &SentField<'_>, text: &mut Vec<u8>) -> Result<(), AllocError>
    ensures { Added (line_of (view_sent_field field.now)) text.old.items text.new.items result }
{
    let start = text.len();
    text.resize(start.saturating_add(field.line_len() - 2), 0)?;
    let _ = field.put_line(&mut text[start..]);
    Ok(())
}

fn add_field(field: &SentField<'_>, text: &mut Vec<u8>) -> Result<(), AllocError>
    ensures { Added (indented_line (line_of (view_sent_field field.now))) text.old.items text.new.items result }
{
    text.extend_from_slice(b"  ")?;
    add_line(field, text)?;
    text.extend_from_slice(b"\n")
}

fn add_fields(fields: &[SentField<'_>], text: &mut Vec<u8>) -> Result<(), AllocError>
    ensures { Added (indented (field_lines (view_sent_fields fields.now))) text.old.items text.new.items result }
{
    for field in fields {
        add_field(field, text)?;
    }
    Ok(())
}

// Adds the line of the length of a body.
fn add_length(body: &[u8], text: &mut Vec<u8>) -> Result<(), AllocError>
    ensures { Added (indented_line (line_of (length_field body.now))) text.old.items text.new.items result }
{
    text.extend_from_slice(b"  content-length: ")?;
    add_number(body.len(), text)?;
    text.extend_from_slice(b"\n")?;
    Ok(())
}

pub fn add_hex(bytes: &[u8], text: &mut Vec<u8>) -> Result<(), AllocError>
    ensures { Added (hexadecimal bytes.now) text.old.items text.new.items result }
{
    text.reserve(bytes.len().saturating_mul(2))?;
    for b in bytes {
        text.extend_from_slice(&hex_digits(*b))?;
    }
    Ok(())
}

// Adds the bytes of a body, after a space, where there are any.
#[tactic(auto, unfolding(text::specs::Bytes::nonempty))]
fn add_bytes(body: &[u8], text: &mut Vec<u8>) -> Result<(), AllocError>
    ensures { Added (body_hex body.now) text.old.items text.new.items result }
{
    if !body.is_empty() {
        text.extend_from_slice(b" ")?;
        add_hex(body, text)?;
    }
    Ok(())
}

// Adds the line of a body: how long it is, and its bytes.
fn add_body(body: &[u8], text: &mut Vec<u8>) -> Result<(), AllocError>
    ensures { Added (body_line body.now) text.old.items text.new.items result }
{
    text.extend_from_slice(b"  body ")?;
    add_number(body.len(), text)?;
    add_bytes(body, text)?;
    text.extend_from_slice(b"\n")
}

fn add_passed(
    server: usize,
    request: &SentRequest<'_, '_>,
    text: &mut Vec<u8>,
) -> Result<(), AllocError>
    ensures { Added (told (passed server (view_sent_request request.now))) text.old.items text.new.items result }
{
    text.extend_from_slice(b"pass ")?;
    add_number(server.saturating_add(1), text)?;
    text.extend_from_slice(b"\n")?;
    request.add_to(text)?;
    Ok(())
}

fn add_fault(flaw: Flaw, text: &mut Vec<u8>) -> Result<(), AllocError>
    ensures { Added (told (fault flaw)) text.old.items text.new.items result }
{
    text.extend_from_slice(b"fault ")?;
    add_number(usize::from(flaw.fault.number()), text)?;
    text.extend_from_slice(b" at ")?;
    add_number(flaw.place, text)?;
    text.extend_from_slice(b"\n")
}
