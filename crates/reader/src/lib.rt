// Why no fair reader can misread the canonical form. Each line of a canonical request has some bytes and neither CR nor LF, so that every fair
// reader cuts the same lines, reads them as everybody does, and knows by the length, which is the last field, where the body ends. Where not all of
// a request has come, a line, the empty line or the body is cut short, and the reader waits.
#![tactic(auto)]

ghost use Rattle.reader.specs.Laws.{TakesOne, Waits, ReadsSo, Understood, OneReading, StrictIsFair};
ghost use Rattle.request.specs.Canonical.{write};
ghost use Rattle.request.specs.Writing.{view_request, Written};

use request::canonical::{Full, Request};

// Writes a request to the front of `out`, whole. Where it is canonical, every fair reader reads exactly it in what was written, and nothing in a
// part of that.
pub fn write_one(request: &Request, out: &mut [u8]) -> Result<usize, Full>
    ensures writes { Written (write (view_request request.now)) out.old out.new result }
    ensures reads { Understood (view_request request.now) out.new result }
{
    request.write(out)
}

// Any fair reader takes exactly one canonical request off the front, and leaves exactly the rest.
pub fn takes_one()
    ensures { TakesOne }
{}

// As long as the last byte of a canonical request has not gone out, any fair reader waits: it neither gives up nor takes anything.
pub fn waits()
    ensures { Waits }
{}

// However many bytes have gone out, a fair reader has read the requests that lie whole in them, and no other.
pub fn reads_so()
    ensures { ReadsSo }
{}

// No two lists of canonical requests go out as the same bytes.
pub fn one_reading()
    ensures { OneReading }
{}

// The strict reader is fair, so that the four promises above are not empty.
pub fn strict_is_fair()
    ensures { StrictIsFair }
{}
