// A request that a reader has found, told as lines of text: its first line, its fields as the reader holds them, and its body.
ghost use Rattle.std.specs.Prelude.{◌≡◌};
ghost use Rattle.text.specs.Numerals.{decimal};
ghost use Rattle.message.specs.Fields.{line_of, field_lines};
ghost use Rattle.request.specs.Canonical.{first_line};
ghost use Rattle.report.specs.Growth.{Added};
ghost use Rattle.report.specs.Report.{indented_line, indented, hexadecimal, body_hex, body_line};
ghost use Rattle.forgiving.specs.Told.{shows_body, found_lines};
ghost use Rattle.forgiving.specs.Held.{view_field, view_fields, view_request};

use crate::field::Field;
use crate::read::Request;
use report::Told;
use request::canonical::carries_body;
use std::alloc::AllocError;
use text::numeral::{Base, hex_digits, write_number};

impl Told for Request {
    ghost lines = { λ request. found_lines (view_request request) };

    fn add_to(&self, text: &mut Vec<u8>) -> Result<(), AllocError> {
        add_first(&self.method, &self.target, text)?;
        add_fields(&self.fields, text)?;
        if self.shows_body() {
            add_body(&self.body, text)?;
        }
        Ok(())
    }
}

impl Request {
    // Whether the line of its body is told: where its method carries one, or there is one.
    #[tactic(auto, using(crate::proofs::Words::some_bytes, crate::proofs::Words::no_bytes))]
    fn shows_body(&self) -> bool
        ensures { result ≡ shows_body (view_request self.now) }
    {
        carries_body(&self.method) || !self.body.is_empty()
    }
}

fn add_first(method: &[u8], target: &[u8], text: &mut Vec<u8>) -> Result<(), AllocError>
    ensures { Added (indented_line (first_line method.now target.now)) text.old.items text.new.items result }
{
    text.extend_from_slice(b"  ")?;
    text.extend_from_slice(method)?;
    text.extend_from_slice(b" ")?;
    text.extend_from_slice(target)?;
    text.extend_from_slice(b" HTTP/1.1\n")
}

fn add_field(field: &Field, text: &mut Vec<u8>) -> Result<(), AllocError>
    ensures { Added (indented_line (line_of (view_field field.now))) text.old.items text.new.items result }
{
    text.extend_from_slice(b"  ")?;
    text.extend_from_slice(&field.name)?;
    text.extend_from_slice(b": ")?;
    text.extend_from_slice(&field.value)?;
    text.extend_from_slice(b"\n")
}

fn add_fields(fields: &[Field], text: &mut Vec<u8>) -> Result<(), AllocError>
    ensures { Added (indented (field_lines (view_fields fields.now))) text.old.items text.new.items result }
{
    for field in fields {
        add_field(field, text)?;
    }
    Ok(())
}

fn add_hex(bytes: &[u8], text: &mut Vec<u8>) -> Result<(), AllocError>
    ensures { Added (hexadecimal bytes.now) text.old.items text.new.items result }
{
    text.reserve(bytes.len().saturating_mul(2))?;
    for b in bytes {
        text.extend_from_slice(&hex_digits(*b))?;
    }
    Ok(())
}

// Adds the bytes of a body, after a space, where there are any.
#[tactic(auto, unfolding(text::specs::Bytes::nonempty))]
fn add_bytes(body: &[u8], text: &mut Vec<u8>) -> Result<(), AllocError>
    ensures { Added (body_hex body.now) text.old.items text.new.items result }
{
    if !body.is_empty() {
        text.extend_from_slice(b" ")?;
        add_hex(body, text)?;
    }
    Ok(())
}

// Adds the line of a body: how long it is, and its bytes.
fn add_body(body: &[u8], text: &mut Vec<u8>) -> Result<(), AllocError>
    ensures { Added (body_line body.now) text.old.items text.new.items result }
{
    let mut digits = [0; 20];
    text.extend_from_slice(b"  body ")?;
    text.extend_from_slice(write_number(&mut digits, body.len(), Base::Decimal))?;
    add_bytes(body, text)?;
    text.extend_from_slice(b"\n")
}
