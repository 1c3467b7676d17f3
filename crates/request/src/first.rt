// The first line of a request: method, space, target, space, version. What the target may hold is judged later.
ghost use Rattle.std.specs.Prelude.{◌≡◌, ◌≤◌, length};
ghost use Rattle.request.specs.First.{agree, check_first, FirstWithin};

use message::fault::{Fault, Flaw};
use text::span::{Class, span, span_before};

// How many bytes the method and the target have. The method stands first, and the target behind the space after it.
#[derive(Clone, Copy)]
pub struct First {
    pub method: usize,
    pub target: usize,
}

// In how many bytes two texts agree, from the front.
fn agreeing(s: &[u8], t: &[u8]) -> usize
    ensures is { result ≡ agree s.now t.now }
    ensures within { result ≤ length s.now }
{
    s.iter().zip(t).take_while(|(a, b)| a == b).count()
}

// Reads a first line from the left; `ended`: CR LF ended it, and no stray byte. A flag, since only the last test asks for it.
pub fn check_first(line: &[u8], ended: bool) -> Result<First, Flaw>
    ensures is { result ≡ check_first line.now ended }
    ensures within { FirstWithin (length line.now) result }
{
    let method = span(line, Class::Upper);
    if method == 0 || method > 16 {
        return Err(Fault::FirstLine.at(method.min(16)));
    }
    if method >= line.len() || line[method] != b' ' {
        return Err(Fault::FirstLine.at(method));
    }
    let start = method + 1;
    if start >= line.len() || line[start] != b'/' {
        return Err(Fault::FirstLine.at(start));
    }
    let target = span_before(&line[start..], b' ');
    let end = start + target;
    if end >= line.len() {
        return Err(Fault::FirstLine.at(end));
    }
    let version = &line[end + 1..];
    let good = agreeing(version, b"HTTP/1.1");
    if good < 8 || version.len() > 8 || !ended {
        return Err(Fault::FirstLine.at(end + 1 + good));
    }
    Ok(First { method, target })
}
