// The responses that the gate itself gives in place of a server's.
ghost use Rattle.text.specs.Numerals.{decimal};
ghost use Rattle.message.specs.Faults.{number_of, status_of};
ghost use Rattle.text.specs.Bytes.{Wrote};
ghost use Rattle.request.specs.Writing.{Written};
ghost use Rattle.response.specs.Refusals.{refusal, refusal_line};

use crate::copy::Response;
use message::fault::Fault;
use request::canonical::Full;
use text::numeral::{Base, write_number};
use text::output::put;

// Writes a number at the front of `out`.
fn put_number(out: &mut [u8], n: usize) -> usize
    ensures { Wrote (decimal n) out.old out.new result }
{
    let mut digits = [0u8; 20];
    let digits = write_number(&mut digits, n, Base::Decimal);
    put(out, digits)
}

// Writes the first line of a refusal, without its end.
fn put_line(out: &mut [u8], fault: Fault) -> usize
    ensures { Wrote (refusal_line fault) out.old out.new result }
{
    let n = put(out, b"HTTP/1.1 ");
    let n = n + put_number(&mut out[n..], usize::from(fault.status()));
    let n = n + put(&mut out[n..], b" ");
    n + put_number(&mut out[n..], usize::from(fault.number()))
}

// Writes the refusal of a fault to the front of `out`, whole, and says how many bytes that took.
pub fn write_refusal(fault: Fault, out: &mut [u8]) -> Result<usize, Full>
    ensures { Written (refusal fault) out.old out.new result }
{
    let mut line = [0u8; 16];
    let n = put_line(&mut line, fault);
    let refusal = Response {
        line: &line[..n],
        fields: &[],
        body: Some(b""),
    };
    refusal.write(out)
}
