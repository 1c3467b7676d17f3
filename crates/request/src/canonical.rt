// Canonical requests and their bytes, however their fields are held. The free end of the output is lent on, part by part: first line, fields,
// length, empty line, body. Whether all of it has room is asked before the first byte is written, so that a refusal leaves the output as it was.
ghost use Rattle.std.specs.Prelude.{◌≡◌, length};
ghost use Rattle.text.specs.Bytes.{Wrote, capped};
ghost use Rattle.request.specs.Canonical.{carries_body, write};
ghost use Rattle.request.specs.Writing.{request_by, head_length, first_bytes, length_bytes, Written};

use message::field::{Field, FieldLine, fields_len, length_field, put_fields};
use text::name::eq;
use text::output::put;

// A request, as parts of the caller's bytes, with fields that are held in any way in which they can be written.
#[derive(Clone, Copy)]
pub struct Request<'f, 'a, F = Field<'a>> {
    pub method: &'a [u8],
    pub target: &'a [u8],
    pub fields: &'f [F],
    pub body: &'a [u8],
}

// The output is too short, and this many bytes are wanted.
#[derive(Clone, Copy)]
pub struct Full {
    pub wanted: usize,
}

// Whether requests of this method carry a body: POST, PUT and PATCH do, and no other.
#[tactic(auto, unfolding(text::specs::Bytes::among))]
pub fn carries_body(method: &[u8]) -> bool
    ensures { result ≡ carries_body method.now }
{
    // by `eq`: a match of byte strings was tried, and left 17 goals open
    eq(method, b"POST") || eq(method, b"PUT") || eq(method, b"PATCH")
}

impl<F: FieldLine> Request<'_, '_, F> {
    fn length_len(&self) -> usize
        ensures { result ≡ capped (length (length_bytes (request_by F.view self.now))) }
    {
        if !carries_body(self.method) {
            return 0;
        }
        let mut digits = [0u8; 20];
        length_field(self.body.len(), &mut digits).line_len()
    }

    // How many bytes its head has on the wire, the empty line included.
    pub fn head_len(&self) -> usize
        ensures { result ≡ capped (head_length (request_by F.view self.now)) }
    {
        let first = self
            .method
            .len()
            .saturating_add(self.target.len())
            .saturating_add(12);
        first
            .saturating_add(fields_len(self.fields))
            .saturating_add(self.length_len())
            .saturating_add(2)
    }

    // How many bytes it has on the wire.
    pub fn wire_len(&self) -> usize
        ensures { result ≡ capped (length (write (request_by F.view self.now))) }
    {
        self.head_len().saturating_add(self.body.len())
    }

    fn put_first_line(&self, out: &mut [u8]) -> usize
        ensures { Wrote (first_bytes (request_by F.view self.now)) out.old out.new result }
    {
        let n = put(out, self.method);
        let n = n + put(&mut out[n..], b" ");
        let n = n + put(&mut out[n..], self.target);
        n + put(&mut out[n..], b" HTTP/1.1\r\n")
    }

    fn put_length(&self, out: &mut [u8]) -> usize
        ensures { Wrote (length_bytes (request_by F.view self.now)) out.old out.new result }
    {
        if !carries_body(self.method) {
            return 0;
        }
        let mut digits = [0u8; 20];
        length_field(self.body.len(), &mut digits).put_line(out)
    }

    // Writes it to the front of `out`, whole, and says how many bytes that took.
    pub fn write(&self, out: &mut [u8]) -> Result<usize, Full>
        ensures { Written (write (request_by F.view self.now)) out.old out.new result }
    {
        let wanted = self.wire_len();
        if wanted > out.len() {
            return Err(Full { wanted });
        }
        let n = self.put_first_line(out);
        let n = n + put_fields(&mut out[n..], self.fields);
        let n = n + self.put_length(&mut out[n..]);
        let n = n + put(&mut out[n..], b"\r\n");
        Ok(n + put(&mut out[n..], self.body))
    }
}
