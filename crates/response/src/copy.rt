// A response as its client gets it: the first line as it came, the fields in canonical form without those that are not sent on, the length where a body may
// follow, an empty line, the body. The free end of the output is lent on, part by part; whether all has room is asked before the first byte is written.
ghost use Rattle.std.specs.Prelude.{◌≡◌, length};
ghost use Rattle.text.specs.Bytes.{Wrote, capped};
ghost use Rattle.request.specs.Writing.{Written};
ghost use Rattle.response.specs.Copies.{body_bytes, copy, length_bytes, view_response};

use message::field::{FieldLine, fields_len, length_field, put_fields};
use message::sent_field::SentField;
use request::canonical::Full;
use text::output::put;

// A response, as parts of the caller's bytes; its fields come into canonical form as they are written. No body: none may follow.
#[derive(Clone, Copy)]
pub struct Response<'f, 'm> {
    pub line: &'m [u8],
    pub fields: &'f [SentField<'m>],
    pub body: Option<&'m [u8]>,
}

impl Response<'_, '_> {
    fn length_len(&self) -> usize
        ensures { result ≡ capped (length (length_bytes (view_response self.now).body)) }
    {
        let Some(body) = self.body else {
            return 0;
        };
        let mut digits = [0u8; 20];
        length_field(body.len(), &mut digits).line_len()
    }

    // The bytes behind the empty line.
    fn body(&self) -> &[u8]
        ensures { result.now ≡ body_bytes (view_response self.now).body }
    {
        // by `match`: the empty text of an `unwrap_or` lives longer than the body
        match self.body {
            Some(body) => body,
            None => b"",
        }
    }

    // How many bytes it has as it is written.
    pub fn wire_len(&self) -> usize
        ensures { result ≡ capped (length (copy (view_response self.now))) }
    {
        self.line
            .len()
            .saturating_add(2)
            .saturating_add(fields_len(self.fields))
            .saturating_add(self.length_len())
            .saturating_add(2)
            .saturating_add(self.body().len())
    }

    fn put_length(&self, out: &mut [u8]) -> usize
        ensures { Wrote (length_bytes (view_response self.now).body) out.old out.new result }
    {
        let Some(body) = self.body else {
            return 0;
        };
        let mut digits = [0u8; 20];
        length_field(body.len(), &mut digits).put_line(out)
    }

    // Writes it to the front of `out`, whole, and says how many bytes that took.
    pub fn write(&self, out: &mut [u8]) -> Result<usize, Full>
        ensures { Written (copy (view_response self.now)) out.old out.new result }
    {
        let wanted = self.wire_len();
        if wanted > out.len() {
            return Err(Full { wanted });
        }
        let n = put(out, self.line);
        let n = n + put(&mut out[n..], b"\r\n");
        let n = n + put_fields(&mut out[n..], self.fields);
        let n = n + self.put_length(&mut out[n..]);
        let n = n + put(&mut out[n..], b"\r\n");
        Ok(n + put(&mut out[n..], self.body()))
    }
}
