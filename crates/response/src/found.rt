// The response that has been read, as parts of the lent memory.
ghost use Rattle.std.specs.Prelude.{◌≡◌, ◌-◌, ◌≤◌, true, length, take, drop};
ghost use Rattle.std.specs.Option.{option_map};
ghost use Rattle.response.specs.Copies.{view_response};
ghost use Rattle.message.specs.SentViews.{view_sent_fields};
ghost use Rattle.response.specs.declared.reading.Reading.TheVariants.{Whole};
ghost use Rattle.response.specs.Found.{body_if, parts_in, holds, response_in, response_with};

use crate::copy::Response;
use crate::head::Head;
use crate::reading::Reading;
use message::hop::keep;
use message::sent::{read_fields, table};
use message::sent_field::SentField;
use request::found::FIELDS_MOST;

impl Head {
    // Whether the parts of a head, and a body that ends at `end`, lie in a memory of this size.
    fn holds(self, end: usize, size: usize) -> bool
        ensures { result ≡ holds size self end }
    {
        self.len >= 2 && self.line <= self.len - 2 && self.len <= end && end <= size
    }

    // The body, where one follows.
    fn body(self, end: usize, memory: &[u8]) -> Option<&[u8]>
        requires { holds (length memory.now) self end ≡ true }
        ensures { option_map (λ b. b.now) result ≡ body_if self.bodied (take (end - self.len) (drop self.len memory.now)) }
    {
        if self.bodied {
            Some(&memory[self.len..end])
        } else {
            None
        }
    }

    // The response that lies in the memory, with these fields.
    fn parts<'f, 'm>(
        self,
        end: usize,
        memory: &'m [u8],
        fields: &'f [SentField<'m>],
    ) -> Response<'f, 'm>
        requires { holds (length memory.now) self end ≡ true }
        ensures { view_response result ≡ parts_in self end memory.now (view_sent_fields fields.now) }
    {
        Response {
            line: &memory[0..self.line],
            fields,
            body: self.body(end, memory),
        }
    }

    // The response that lies in the memory.
    fn response<'f, 'm>(
        self,
        end: usize,
        memory: &'m [u8],
        fields: &'f mut [SentField<'m>],
    ) -> Option<Response<'f, 'm>>
        requires { 64 ≤ length fields.old }
        ensures { option_map view_response result ≡ response_in (Whole self end) memory.now }
    {
        if !self.holds(end, memory.len()) {
            return None;
        }
        let mut table = table();
        let Ok(Some(read)) = read_fields(&memory[0..self.len], self.line + 2, &mut table) else {
            return None;
        };
        let sent_on = keep(read.lines, fields);
        Some(self.parts(end, memory, sent_on))
    }
}

impl Reading {
    // The response in the memory, where all of it has come. The fields that are sent on are put into `fields`, which must have room for all of a head.
    pub fn response<'f, 'm>(
        self,
        memory: &'m [u8],
        fields: &'f mut [SentField<'m>],
    ) -> Option<Response<'f, 'm>>
        ensures { option_map view_response result ≡ response_with (length fields.old) self memory.now }
    {
        if fields.len() < FIELDS_MOST {
            return None;
        }
        match self {
            Reading::Whole(head, end) => head.response(end, memory, fields),
            _ => None,
        }
    }
}
