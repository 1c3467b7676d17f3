// What reading a client has found: a request, as parts of the lent memory; that more is wanted; or the first fault and its place. The last
// fault that can be found is looked for here: a canonical head that is too long.
ghost use Rattle.std.specs.Prelude.{◌≡◌, ◌≤◌, true, length};
ghost use Rattle.message.specs.SentViews.{view_sent_fields};
ghost use Rattle.request.specs.SentWriting.{view_sent_request};
ghost use Rattle.request.specs.Found.{holds, parts_in, limited, whole_in, found_with, view_finding, view_found};

use crate::head::Head;
use crate::reading::Reading;
use crate::sent::SentRequest;
use message::fault::{Fault, Flaw, Unfit};
use message::hop::keep;
use message::sent::{read_fields, table};
use message::sent_field::SentField;

// A canonical head has at most so many bytes, its empty line included.
pub const HEAD_MOST: usize = 16384;

// A head has at most so many fields.
pub const FIELDS_MOST: usize = 64;

// What reading has found. A fault is an answer here and no error, so that `Err` is left for a memory that does not fit.
#[derive(Clone, Copy)]
pub enum Found<'f, 'm> {
    // a request that is let pass, and its server, counted from 0
    Request(usize, SentRequest<'f, 'm>),
    More,
    Fault(Flaw),
}

impl Head {
    // Whether the parts of a head, and a body that ends at `end`, lie in a memory of this size.
    fn holds(self, end: usize, size: usize) -> bool
        ensures { result ≡ holds size self end }
    {
        self.method < self.len
            && self.target < self.len - self.method
            && self.len <= end
            && end <= size
    }

    // The request that lies in the memory, with these fields.
    fn parts<'f, 'm>(
        self,
        end: usize,
        memory: &'m [u8],
        fields: &'f [SentField<'m>],
    ) -> SentRequest<'f, 'm>
        requires { holds (length memory.now) self end ≡ true }
        ensures { view_sent_request result ≡ parts_in self end memory.now (view_sent_fields fields.now) }
    {
        let Head {
            len,
            method,
            target,
            ..
        } = self;
        SentRequest {
            method: &memory[0..method],
            target: &memory[method + 1..method + 1 + target],
            fields,
            body: &memory[len..end],
        }
    }

    // The last fault that can be found, or the request.
    fn limited<'f, 'm>(self, request: SentRequest<'f, 'm>) -> Found<'f, 'm>
        ensures { view_finding result ≡ limited self.server self.len (view_sent_request request.entry) }
    {
        if request.head_len() > HEAD_MOST {
            return Found::Fault(Fault::TooLong.at(self.len));
        }
        Found::Request(self.server, request)
    }

    // The request that lies in the memory, or the last fault.
    fn request<'f, 'm>(
        self,
        end: usize,
        memory: &'m [u8],
        fields: &'f mut [SentField<'m>],
    ) -> Result<Found<'f, 'm>, Unfit>
        requires { 64 ≤ length fields.old }
        ensures { view_found result ≡ whole_in self end memory.now }
    {
        if !self.holds(end, memory.len()) {
            return Err(Unfit);
        }
        let len = self.len;
        let mut table = table();
        let Ok(Some(read)) = read_fields(&memory[0..len], self.fields, &mut table) else {
            return Err(Unfit);
        };
        let sent_on = keep(read.lines, fields);
        let request = self.parts(end, memory, sent_on);
        Ok(self.limited(request))
    }
}

impl Reading {
    // What has been found. The fields that are sent on are put into `fields`, which must have room for all of a head.
    pub fn found<'f, 'm>(
        self,
        memory: &'m [u8],
        fields: &'f mut [SentField<'m>],
    ) -> Result<Found<'f, 'm>, Unfit>
        ensures { view_found result ≡ found_with (length fields.old) self memory.now }
    {
        if fields.len() < FIELDS_MOST {
            return Err(Unfit);
        }
        match self {
            Reading::InHead(_) | Reading::InBody(..) => Ok(Found::More),
            Reading::Refused(flaw) => Ok(Found::Fault(flaw)),
            Reading::Whole(head, end) => head.request(end, memory, fields),
        }
    }
}
