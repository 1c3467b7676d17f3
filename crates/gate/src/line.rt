// The lines that are printed: each says one thing that happened.
ghost use Rattle.std.specs.Prelude.{[], ◌∷◌, ◌++◌};
ghost use Rattle.report.specs.Growth.{Added};
ghost use Rattle.report.specs.Report.{hexadecimal};
ghost use Rattle.gate.specs.Lines.{numbered, line_of};

use report::{Told, add_hex, add_number};
use std::alloc::AllocError;

// Clients and servers by their numbers from 0 on, as the gate counts them. In a line they are counted from 1.
#[derive(Clone, Copy)]
pub enum Line<'a> {
    // a whole request went out to a server
    ToServer(usize, &'a [u8]),
    // a whole response, or a refusal, was given to a client
    ToClient(usize, &'a [u8]),
    // the connection of a client was ended
    EndClient(usize),
    // the connection to a server went down
    DownServer(usize),
}

// Adds some words and a number that is counted from 1.
fn add_numbered(words: &[u8], number: usize, text: &mut Vec<u8>) -> Result<(), AllocError>
    ensures { Added (numbered words.now number) text.old.items text.new.items result }
{
    text.extend_from_slice(words)?;
    add_number(number.saturating_add(1), text)
}

// Adds a line that ends with bytes.
fn add_given(
    words: &[u8],
    number: usize,
    bytes: &[u8],
    text: &mut Vec<u8>,
) -> Result<(), AllocError>
    ensures { Added (numbered words.now number ++ (32 ∷ (hexadecimal bytes.now ++ (10 ∷ [])))) text.old.items text.new.items result }
{
    add_numbered(words, number, text)?;
    text.extend_from_slice(b" ")?;
    add_hex(bytes, text)?;
    text.extend_from_slice(b"\n")
}

// Adds a line that ends with a number.
fn add_ended(words: &[u8], number: usize, text: &mut Vec<u8>) -> Result<(), AllocError>
    ensures { Added (numbered words.now number ++ (10 ∷ [])) text.old.items text.new.items result }
{
    add_numbered(words, number, text)?;
    text.extend_from_slice(b"\n")
}

impl Told for Line<'_> {
    ghost lines = { line_of };

    fn add_to(&self, text: &mut Vec<u8>) -> Result<(), AllocError> {
        match *self {
            Line::ToServer(server, bytes) => add_given(b"to server ", server, bytes, text),
            Line::ToClient(client, bytes) => add_given(b"to client ", client, bytes, text),
            Line::EndClient(client) => add_ended(b"end client ", client, text),
            Line::DownServer(server) => add_ended(b"down server ", server, text),
        }
    }
}
