// Requests, cut out of the bytes of a connection as a server with a habit cuts them.
ghost use Rattle.std.specs.Prelude.{◌≡◌, suc, length, IfOk};
ghost use Rattle.reader.specs.Reader.{with_ask, read_one, read_all};
ghost use Rattle.reader.specs.Strict.{read_ask};
ghost use Rattle.forgiving.specs.Readers.{reader_with};
ghost use Rattle.forgiving.specs.Held.{texts, view_got, view_requests, Shorter};

use crate::ask::read_ask;
use crate::field::Field;
use crate::got::Got;
use crate::habit::Habit;
use std::alloc::{AllocError, Global};

// A request as a reader holds it.
#[derive(Drop)]
pub struct Request {
    pub method: Vec<u8>,
    pub target: Vec<u8>,
    pub fields: Vec<Field>,
    pub body: Vec<u8>,
}

impl Habit {
    // Whether empty lines before a request are passed over.
    fn skips(self) -> bool
        ensures { result ≡ (reader_with self).skips }
    {
        matches!(self, Habit::EmptyLines)
    }

    // What the lines of a head, and what follows it, are read as.
    fn read_request<'a>(
        self,
        heap: Global,
        first: &[u8],
        lines: &[&[u8]],
        bytes: &'a [u8],
    ) -> Result<Got<'a, Request>, AllocError>
        ensures { IfOk result (λ g. view_got g ≡ with_ask (reader_with self) (texts lines.now) bytes.now (read_ask first.now)) }
    {
        let Some((method, target)) = read_ask(first) else {
            return Ok(Got::Bad);
        };
        let Some(fields) = self.read_fields(heap, lines)? else {
            return Ok(Got::Bad);
        };
        match self.read_body(heap, method, &fields, bytes)? {
            Got::More => Ok(Got::More),
            Got::Bad => Ok(Got::Bad),
            Got::Whole(body, rest) => {
                let method = Vec::from_slice(heap, method)?;
                let target = Vec::from_slice(heap, target)?;
                let request = Request {
                    method,
                    target,
                    fields,
                    body,
                };
                Ok(Got::Whole(request, rest))
            }
        }
    }

    // What is found at the front of a text: the first request, with what follows it.
    pub fn read_one(self, heap: Global, bytes: &[u8]) -> Result<Got<'_, Request>, AllocError>
        ensures is { IfOk result (λ g. view_got g ≡ read_one (suc (length bytes.now)) (reader_with self) bytes.now) }
        ensures shorter { IfOk result (λ g. Shorter (length bytes.now) g) }
    {
        let mut rest = bytes;
        while let Some(head) = self.read_head(heap, rest)? {
            if let Some((first, lines)) = head.lines.split_first() {
                return self.read_request(heap, first, lines, head.rest);
            }
            if !self.skips() {
                return Ok(Got::Bad);
            }
            rest = head.rest;
        }
        Ok(Got::More)
    }

    // All the requests in a text, in order, up to where the reader waits or gives up.
    pub fn read_all(self, heap: Global, bytes: &[u8]) -> Result<Vec<Request>, AllocError>
        ensures { IfOk result (λ qs. view_requests qs.items ≡ read_all (reader_with self) bytes.now) }
    {
        let mut requests = Vec::new(heap);
        let mut rest = bytes;
        while let Got::Whole(request, more) = self.read_one(heap, rest)? {
            requests.push(request)?;
            rest = more;
        }
        Ok(requests)
    }
}
