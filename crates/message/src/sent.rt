// The field lines of a head as they were sent: cut, judged one by one, and kept as parts of the caller's bytes, up to the empty line. A line
// is judged once it has ended or its stray byte is known. Places are counted from the first byte of the text that is lent.
ghost use Rattle.std.specs.Prelude.{◌≡◌, ◌+◌, ◌^◌, ◌<◌, [], length, replicate, IfOk, OnOk, IfSome};
ghost use Rattle.message.specs.Sent.{check_field, read_line, view_lines, view_read, view_found, fields_in, FieldsIn};

use crate::fault::{Fault, Flaw};
use crate::sent_field::SentField;
use text::line::{Cut, cut_line};
use text::span::{Class, span, span_before};
use text::value::trim;

// A name has at most so many bytes.
const NAME_MOST: usize = 64;

// A field as sent, its value without the blanks at its ends; and where its line and its value begin.
#[derive(Clone, Copy)]
pub struct Line<'a> {
    pub field: SentField<'a>,
    pub at: usize,
    pub value_at: usize,
}

// All the fields of a head.
#[derive(Clone, Copy)]
pub struct Fields<'t, 'a> {
    // in order
    pub lines: &'t [Line<'a>],
    // where the head ends, its empty line included
    pub end: usize,
}

// A table for the fields of a head, to be lent to `read_fields`: its length is how many a head may have.
pub fn table<'a>() -> [Line<'a>; 64]
    ensures { view_lines result ≡ replicate 64 (record { name = []; value = []; at = 0; value_at = 0 }) }
{
    let none = Line {
        field: SentField {
            name: b"",
            value: b"",
        },
        at: 0,
        value_at: 0,
    };
    [none; 64]
}

// A field line that was cut off a head: where it begins, and whether CR LF ended it, and no stray byte; a flag, since only the last test asks for it.
#[derive(Clone, Copy)]
struct CutLine<'a> {
    bytes: &'a [u8],
    at: usize,
    ended: bool,
    // its places can be counted
    ghost counted: { at + length bytes.now < 2 ^ 64 },
}

impl<'a> CutLine<'a> {
    // Where its colon stands, or what is wrong with it.
    fn colon(self) -> Result<usize, Flaw>
        ensures is { result ≡ check_field self.entry.at self.entry.bytes.now self.entry.ended }
        ensures within { IfOk result (λ colon. colon < length self.entry.bytes.now) }
    {
        let line = self.bytes;
        let name = span_before(line, b':');
        if name > NAME_MOST {
            return Err(Fault::TooLong.at(self.at + NAME_MOST));
        }
        if name == 0 {
            return Err(Fault::FieldLine.at(self.at));
        }
        let good = span(line, Class::Name);
        if good < name || name >= line.len() {
            return Err(Fault::FieldLine.at(self.at + good));
        }
        let good = name + 1 + span(&line[name + 1..], Class::Value);
        if good < line.len() || !self.ended {
            return Err(Fault::FieldLine.at(self.at + good));
        }
        Ok(name)
    }

    // The field in it, where `left` lines more are allowed, or what is wrong with it.
    #[tactic(auto, using(crate::proofs::Reading::checked_none, crate::proofs::Reading::checked_some))]
    fn field(self, left: usize) -> Result<Line<'a>, Flaw>
        ensures is { view_read result ≡ read_line left self.entry.at self.entry.bytes.now self.entry.ended }
        ensures allowed { OnOk result (0 < left) }
    {
        if left == 0 {
            return Err(Fault::TooLong.at(self.at));
        }
        let colon = self.colon()?;
        let value = &self.bytes[colon + 1..];
        Ok(Line {
            field: SentField {
                name: &self.bytes[..colon],
                value: trim(value),
            },
            at: self.at,
            value_at: self.at + colon + 1 + span(value, Class::Blank),
        })
    }
}

// Reads the field lines of a head from `start` on, as many as the table has room for. None: the head has not ended.
pub fn read_fields<'t, 'a>(
    head: &'a [u8],
    start: usize,
    table: &'t mut [Line<'a>],
) -> Result<Option<Fields<'t, 'a>>, Flaw>
    ensures is { view_found result ≡ fields_in (length table.old) head.now start }
    ensures within { IfOk result (λ found. IfSome found (λ fields. FieldsIn (length table.old) start (length head.now) fields)) }
{
    if start > head.len() {
        return Ok(None);
    }
    // the table is lent, as all memory is here: so many of its places are filled
    let mut count: usize = 0;
    let mut rest = &head[start..];
    loop {
        let left = table.len() - count;
        let at = head.len() - rest.len();
        match cut_line(rest) {
            Cut::Short => return Ok(None),
            Cut::Stray(n) => {
                let (bytes, ended) = (&rest[..n], false);
                CutLine { bytes, at, ended }.field(left)?;
                return Ok(None);
            }
            Cut::Line(bytes, more) => {
                if bytes.is_empty() {
                    let end = at + 2;
                    let lines = &table[..];
                    let lines = &lines[..count];
                    return Ok(Some(Fields { lines, end }));
                }
                let ended = true;
                table[count] = CutLine { bytes, at, ended }.field(left)?;
                count += 1;
                rest = more;
            }
        }
    }
}
