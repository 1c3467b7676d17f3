// A chunked body, read in pieces as they come and written out with its chunks undone. A small state goes from piece to piece; the bytes of a
// chunk are copied as they come, and every other byte is a step from one phase to the next.
// RFC 9112, 7.1. Stricter: a size of at most 5 digits, no extensions, no trailer.
ghost use Rattle.std.specs.Prelude.{Ok, ◌≡◌, ◌+◌, ◌^◌, ◌<◌, ◌≤◌, length};
ghost use Rattle.text.specs.Numerals.{digit_value};
ghost use Rattle.text.specs.declared.numeral.Base.TheVariants.{Hexadecimal};
ghost use Rattle.message.specs.Chunked.{most_bytes, fresh, to, wrong_byte, only, on_size, sized, step_of, due_of, skipped, fits, fed, fed_by, held_by};

use crate::fault::{Fault, Flaw, Unfit};
use text::numeral::Base;
use text::output::put;

#[derive(Clone, Copy)]
pub enum Phase {
    // the digits of a size: the place of the first, how many were read, and what they are worth
    Size {
        first: usize,
        digits: u8,
        value: usize,
    },
    // LF is due after a size
    SizeLf {
        first: usize,
        value: usize,
    },
    // so many bytes of the chunk are due, and then CR
    Bytes {
        left: usize,
    },
    // LF is due after the chunk
    BytesLf,
    // CR and LF are due after the size 0
    LastCr,
    LastLf,
}

#[derive(Clone, Copy)]
pub struct Chunk {
    pub phase: Phase,
    // how many bytes the chunks to come may have
    pub room: usize,
    // the place of the next byte, as sent
    pub read: usize,
}

// How the reading of a piece ended. No Result, since `?` could not pass the fault on: what was read and written is told of a refused body too.
#[derive(Clone, Copy)]
pub enum Outcome {
    // all of it was read, and the body goes on
    More,
    // the body has ended
    Whole,
    // the body is refused
    Wrong(Flaw),
}

// What came of a piece: the state after it, how many bytes of the body were written, and how many bytes of the piece were read.
#[derive(Clone, Copy)]
pub struct Fed {
    pub chunk: Chunk,
    pub written: usize,
    pub taken: usize,
    pub outcome: Outcome,
}

// A byte that is none of a chunk's own leads on, or ends the body.
#[derive(Clone, Copy)]
pub enum Step {
    On(Chunk),
    End(Chunk),
}

// Such a byte, and the state that it comes in.
#[derive(Clone, Copy)]
struct Control {
    state: Chunk,
    byte: u8,
    // the place behind it can be counted
    ghost counted: { state.read + 1 < 2 ^ 64 },
}

impl Control {
    // The byte is right, and the next is read in this phase.
    fn to(self, phase: Phase) -> Step
        ensures { result ≡ to self.state phase }
    {
        Step::On(Chunk {
            phase,
            room: self.state.room,
            read: self.state.read + 1,
        })
    }

    // The byte is wrong.
    fn wrong(self) -> Flaw
        ensures { result ≡ wrong_byte self.state }
    {
        Fault::Chunk.at(self.state.read)
    }

    // One byte must stand here.
    fn only(self, mark: u8) -> Result<(), Flaw>
        ensures { result ≡ only mark self.state self.byte (Ok tt) }
    {
        if self.byte == mark {
            Ok(())
        } else {
            Err(self.wrong())
        }
    }

    // A digit of a size, or the CR after it. The bound on the value holds wherever fewer than 5 digits were read, and keeps the sum small anywhere.
    fn on_size(self, first: usize, digits: u8, value: usize) -> Result<Step, Flaw>
        ensures { result ≡ on_size self.state first digits value self.byte (digit_value Hexadecimal self.byte) }
    {
        match Base::Hexadecimal.digit_value(self.byte) {
            Some(d) if digits < 5 && value < 0x1_0000 => Ok(self.to(Phase::Size {
                first,
                digits: digits + 1,
                value: value * 16 + usize::from(d),
            })),
            None if self.byte == b'\r' && digits > 0 => Ok(self.to(Phase::SizeLf { first, value })),
            _ => Err(self.wrong()),
        }
    }

    // The line of a size has ended.
    fn sized(self, first: usize, value: usize) -> Result<Step, Flaw>
        ensures { result ≡ sized self.state first value }
    {
        if value == 0 {
            return Ok(self.to(Phase::LastCr));
        }
        if value > self.state.room {
            return Err(Fault::BodyTooLong.at(first));
        }
        Ok(Step::On(Chunk {
            phase: Phase::Bytes { left: value },
            room: self.state.room - value,
            read: self.state.read + 1,
        }))
    }

    // What the byte does.
    fn step(self) -> Result<Step, Flaw>
        ensures { result ≡ step_of self.state self.byte }
    {
        let Chunk { phase, room, read } = self.state;
        let read = read + 1;
        match phase {
            Phase::Size {
                first,
                digits,
                value,
            } => self.on_size(first, digits, value),
            Phase::SizeLf { first, value } => {
                self.only(b'\n')?;
                self.sized(first, value)
            }
            Phase::Bytes { left: _ } => {
                self.only(b'\r')?;
                Ok(self.to(Phase::BytesLf))
            }
            Phase::BytesLf => {
                self.only(b'\n')?;
                Ok(self.to(Phase::Size {
                    first: read,
                    digits: 0,
                    value: 0,
                }))
            }
            Phase::LastCr => {
                self.only(b'\r')?;
                Ok(self.to(Phase::LastLf))
            }
            Phase::LastLf => {
                self.only(b'\n')?;
                Ok(Step::End(Chunk { phase, room, read }))
            }
        }
    }
}

impl Chunk {
    // The start of a chunked body whose first byte has the place `read`.
    #[tactic(auto, unfolding(crate::specs::Chunked::most_bytes))]
    pub fn new(read: usize) -> Chunk
        ensures { result ≡ fresh most_bytes read }
    {
        Chunk {
            phase: Phase::Size {
                first: read,
                digits: 0,
                value: 0,
            },
            room: 262_143,
            read,
        }
    }

    // How many bytes of the chunk are due.
    fn due(self) -> usize
        ensures { result ≡ due_of self }
    {
        match self.phase {
            Phase::Bytes { left } => left,
            _ => 0,
        }
    }

    // Whether `size` bytes of memory have room for all that the body may still have, and `more` bytes can be counted.
    pub fn fits(self, size: usize, more: usize) -> bool
        ensures { result ≡ fits self size more }
    {
        let due = self.due();
        due <= size && self.room <= size - due && more <= usize::MAX - self.read
    }

    // After `n` of the bytes that are due.
    fn skip(self, n: usize) -> Chunk
        requires { (n ≤ due_of self) × (self.read + n < 2 ^ 64) }
        ensures { result ≡ skipped self n }
    {
        Chunk {
            phase: Phase::Bytes {
                left: self.due() - n,
            },
            room: self.room,
            read: self.read + n,
        }
    }

    // What came of a piece, with this state after it.
    fn fed(self, written: usize, taken: usize, outcome: Outcome) -> Fed
        ensures { result ≡ fed self written taken outcome }
    {
        Fed {
            chunk: self,
            written,
            taken,
            outcome,
        }
    }

    // Reads a piece, and writes the body's bytes that it holds to the front of `out`. Where `out` could not hold all that the body may still have,
    // nothing is read.
    pub fn feed(self, out: &mut [u8], piece: &[u8]) -> Result<Fed, Unfit>
        ensures told { result ≡ fed_by self (length out.old) piece.now }
        ensures held { out.new ≡ held_by self out.old piece.now }
    {
        if !self.fits(out.len(), piece.len()) {
            return Err(Unfit);
        }
        let mut chunk = self;
        let mut written: usize = 0;
        let mut rest = piece;
        while let Some((byte, behind)) = rest.split_first() {
            let due = chunk.due().min(rest.len());
            if due > 0 {
                let (bytes, after) = rest.split_at(due);
                written += put(&mut out[written..], bytes);
                chunk = chunk.skip(due);
                rest = after;
                continue;
            }
            let taken = piece.len() - behind.len();
            let control = Control {
                state: chunk,
                byte: *byte,
            };
            match control.step() {
                Ok(Step::On(next)) => chunk = next,
                Ok(Step::End(last)) => return Ok(last.fed(written, taken, Outcome::Whole)),
                Err(flaw) => return Ok(chunk.fed(written, taken - 1, Outcome::Wrong(flaw))),
            }
            rest = behind;
        }
        Ok(chunk.fed(written, piece.len(), Outcome::More))
    }
}
