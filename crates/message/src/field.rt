// Fields, as parts of the caller's bytes, and the lines that they are written as: name, colon, space, value, CR LF. How a field is held is left
// open: what holds one says which name and which value are written, and the lines are the same for all.
ghost use Rattle.std.specs.Prelude.{◌≡◌, length};
ghost use Rattle.text.specs.Bytes.{Wrote, capped};
ghost use Rattle.message.specs.Fields.{Field as Written, length_of};
ghost use Rattle.message.specs.Views.{view_field, fields_by, field_line, field_bytes};

use text::numeral::{Base, write_number};
use text::output::put;

// What a field line is written of.
pub trait FieldLine {
    // the field that it is written as
    ghost view: { Self → Written };

    // How many bytes its name has as it is written.
    fn name_len(&self) -> usize
        ensures { result ≡ length (view self.now).name };

    // How many bytes its value has as it is written.
    fn value_len(&self) -> usize
        ensures { result ≡ length (view self.now).value };

    // Writes its name to the front of `out`, as far as there is room.
    fn put_name(&self, out: &mut [u8]) -> usize
        ensures { Wrote (view self.now).name out.old out.new result };

    // Writes its value to the front of `out`, as far as there is room.
    fn put_value(&self, out: &mut [u8]) -> usize
        ensures { Wrote (view self.now).value out.old out.new result };

    // How many bytes its line has.
    #[tactic(auto, unfolding(crate::specs::Fields::lines_of))]
    final fn line_len(&self) -> usize
        ensures { result ≡ capped (length (field_line (view self.now))) }
    {
        self.name_len()
            .saturating_add(self.value_len())
            .saturating_add(4)
    }

    // Writes its line to the front of `out`, as far as there is room.
    final fn put_line(&self, out: &mut [u8]) -> usize
        ensures { Wrote (field_line (view self.now)) out.old out.new result }
    {
        let n = self.put_name(out);
        let n = n + put(&mut out[n..], b": ");
        let n = n + self.put_value(&mut out[n..]);
        n + put(&mut out[n..], b"\r\n")
    }
}

// How many bytes the lines of all the fields have.
#[tactic(auto, unfolding(crate::specs::Fields::field_lines, crate::specs::Fields::lines_of))]
pub fn fields_len<F: FieldLine>(fields: &[F]) -> usize
    ensures { result ≡ capped (length (field_bytes (fields_by F.view fields.now))) }
{
    let mut n: usize = 0;
    for f in fields {
        let line = f.line_len();
        n = n.saturating_add(line);
    }
    n
}

// Writes the lines of all the fields, in order, as far as there is room.
#[tactic(auto, unfolding(crate::specs::Fields::field_lines, crate::specs::Fields::lines_of))]
pub fn put_fields<F: FieldLine>(out: &mut [u8], fields: &[F]) -> usize
    ensures { Wrote (field_bytes (fields_by F.view fields.now)) out.old out.new result }
{
    let mut n: usize = 0;
    for f in fields {
        let free = &mut out[n..];
        n += f.put_line(free);
    }
    n
}

// A field in canonical form: it is written as it is held.
#[derive(Clone, Copy)]
pub struct Field<'a> {
    pub name: &'a [u8],
    pub value: &'a [u8],
}

// The field that says how long a body is, with its digits in the caller's bytes.
pub fn length_field(len: usize, digits: &mut [u8; 20]) -> Field<'_>
    ensures { view_field result ≡ length_of len }
{
    Field {
        name: b"content-length",
        value: write_number(digits, len, Base::Decimal),
    }
}

impl FieldLine for Field<'_> {
    ghost view = { view_field };

    fn name_len(&self) -> usize {
        self.name.len()
    }

    fn value_len(&self) -> usize {
        self.value.len()
    }

    fn put_name(&self, out: &mut [u8]) -> usize {
        put(out, self.name)
    }

    fn put_value(&self, out: &mut [u8]) -> usize {
        put(out, self.value)
    }
}
