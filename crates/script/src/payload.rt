// The bytes of an event, as hexadecimal digits or as text in quotes. An iterator gives the bytes that are spelled, one after the other: a
// check runs it for whether all of them are well spelled, `decode` for what they are.
ghost use Rattle.std.specs.Prelude.{◌≡◌, true, false, [], ◌∷◌, is_some, Some, None, IfOk, MatchOption, vec_capacity, OnErr};
ghost use Rattle.std.specs.Iterator.{YieldsFirst, item_count};
ghost use Rattle.std.specs.Option.{option_map};
ghost use Rattle.script.specs.Payloads.{start_of, fault_of, escaped, first_pair, first_escaped, first_quoted, has_ended, bytes_from, bytes_of, bytes_left, spelled, text_of, payload_of, view_payload, Decoded};

use crate::problem::Problem;
use text::mark::after;
use text::numeral::hex_pair;

#[derive(Clone, Copy)]
pub enum Payload<'a> {
    // the digits
    Hex(&'a [u8]),
    // what follows the opening quote, the closing one included
    Quoted(&'a [u8]),
}

// The byte that a letter stands for after a backslash.
fn escaped(b: u8) -> Option<u8>
    ensures { result ≡ escaped b }
{
    match b {
        b'r' => Some(b'\r'),
        b'n' => Some(b'\n'),
        b't' => Some(b'\t'),
        b'\\' => Some(b'\\'),
        b'"' => Some(b'"'),
        _ => None,
    }
}

// The byte that two digits spell in front, and what follows them.
fn first_pair(digits: &[u8]) -> Option<(u8, &[u8])>
    ensures { option_map (λ p. (p.0, p.1.now)) result ≡ first_pair digits.now }
{
    match digits {
        [a, b, rest @ ..] => Some((hex_pair(*a, *b)?, rest)),
        _ => None,
    }
}

// The byte that is spelled in front behind a backslash, and what follows.
fn first_escaped(text: &[u8]) -> Option<(u8, &[u8])>
    ensures { option_map (λ p. (p.0, p.1.now)) result ≡ first_escaped text.now }
{
    match text {
        [b'x', rest @ ..] => first_pair(rest),
        [c, rest @ ..] => Some((escaped(*c)?, rest)),
        [] => None,
    }
}

// The byte that is spelled in front in quotes, and what follows.
fn first_quoted(text: &[u8]) -> Option<(u8, &[u8])>
    ensures { option_map (λ p. (p.0, p.1.now)) result ≡ first_quoted text.now }
{
    match text {
        [b'\\', rest @ ..] => first_escaped(rest),
        [c @ (b' '..=b'!' | b'#'..=b'~'), rest @ ..] => Some((*c, rest)),
        _ => None,
    }
}

// The bytes that a payload spells, one after the other; none in place of the first that is misspelled, and then nothing more. Which problem that is
// depends on the payload alone, so the items do not carry it.
#[derive(Drop)]
pub(crate) struct Spelling<'a> {
    // what is still to be spelled out; nothing behind the last digits, a closing quote or a fault
    left: Option<Payload<'a>>,
}

impl<'a> Iterator for Spelling<'a> {
    type Item = Option<u8>;

    ghost next_gives = { YieldsFirst bytes_left };

    ghost remaining = { item_count bytes_left };

    #[tactic(auto, using(crate::proofs::Spelling::ended))]
    fn next(&mut self) -> Option<Option<u8>> {
        let payload = self.left.take()?;
        if payload.has_ended() {
            return None;
        }
        let Some((b, left)) = payload.first() else {
            return Some(None);
        };
        self.left = left;
        Some(Some(b))
    }
}

impl<'a> Payload<'a> {
    fn fault(self) -> Problem
        ensures { result ≡ fault_of self.entry }
    {
        match self {
            Payload::Hex(_) => Problem::Hexadecimal,
            Payload::Quoted(_) => Problem::QuotedText,
        }
    }

    // Whether only the closing quote is left.
    fn has_ended(self) -> bool
        ensures { result ≡ has_ended self.entry }
    {
        matches!(self, Payload::Quoted([b'"']))
    }

    // The byte that is spelled in front, and what is still to be spelled out behind it: nothing behind the last digits.
    fn first(self) -> Option<(u8, Option<Payload<'a>>)>
        ensures { MatchOption result (has_ended self.entry ≡ false → bytes_of (Some self.entry) ≡ None ∷ []) (λ p. bytes_of (Some self.entry) ≡ Some p.0 ∷ bytes_of p.1) }
    {
        match self {
            Payload::Hex(digits) => {
                let (b, rest) = first_pair(digits)?;
                Some((b, (!rest.is_empty()).then_some(Payload::Hex(rest))))
            }
            Payload::Quoted(text) => {
                let (b, rest) = first_quoted(text)?;
                Some((b, Some(Payload::Quoted(rest))))
            }
        }
    }

    // The bytes that are spelled, one after the other.
    fn bytes(self) -> Spelling<'a>
        ensures { bytes_left result ≡ bytes_from (start_of self.entry) (text_of self.entry) }
    {
        Spelling { left: Some(self) }
    }

    fn is_well_spelled(self) -> bool
        ensures { result ≡ is_some (spelled self.entry) }
    {
        self.bytes().all(|byte| byte.is_some())
    }

    #[tactic(auto, using(crate::proofs::Spelling::joined_none, crate::proofs::Spelling::whole_spelled, crate::proofs::Spelling::puts_few))]
    fn spell(self, out: &mut Vec<u8>) -> Result<(), Problem>
        ensures { Decoded self.entry (vec_capacity out.old) out.new.items result }
    {
        out.clear();
        for byte in self.bytes() {
            let Some(b) = byte else {
                return Err(self.fault());
            };
            out.push(b)?;
        }
        Ok(())
    }

    // Makes `out` hold the bytes that are spelled, or nothing where it is refused.
    pub fn decode(self, out: &mut Vec<u8>) -> Result<(), Problem>
        ensures is { Decoded self.entry (vec_capacity out.old) out.new.items result }
        ensures none { OnErr result (out.new.items ≡ []) }
    {
        let result = self.spell(out);
        if result.is_err() {
            out.clear();
        }
        result
    }
}

// The payload that an event's last word is.
pub(crate) fn read_payload(word: &[u8]) -> Result<Payload<'_>, Problem>
    ensures is { view_payload result ≡ payload_of word.now }
    ensures sound { IfOk result (λ p. is_some (spelled p) ≡ true) }
{
    let payload = match after(word, b"\"") {
        Some(rest) => Payload::Quoted(rest),
        None => Payload::Hex(word),
    };
    if payload.is_well_spelled() {
        Ok(payload)
    } else {
        Err(payload.fault())
    }
}
