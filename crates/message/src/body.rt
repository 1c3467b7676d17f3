// A body, read in pieces as they come and written to lent memory: by its length, or in chunks that are undone. Requests and responses have the same.
ghost use Rattle.std.specs.Prelude.{◌≡◌, ◌≤◌, length, IfOk};
ghost use Rattle.message.specs.Bodies.{due_by, fits, fed_by, held_by, unplaced};
ghost use Rattle.message.specs.declared.body.Due.TheVariants.{Length};

use crate::chunked::{Chunk, Outcome, Phase};
use crate::fault::{Fault, Flaw, Unfit};
use crate::framing::{Said, Size};
use text::output::put;

// A body has at most so many bytes.
pub const MOST: usize = 262143;

// What is still due of a body.
#[derive(Clone, Copy)]
pub enum Due {
    // so many bytes
    Length(usize),
    Chunks(Chunk),
}

// What came of a piece: what is due after it, how many bytes of the body were written, how much of the piece belonged to the body, and how it ended.
#[derive(Clone, Copy)]
pub struct Fed {
    pub due: Due,
    pub written: usize,
    pub taken: usize,
    pub outcome: Outcome,
}

impl Due {
    // What is due of a body after a head of `len` bytes that says this of it.
    #[tactic(auto, unfolding(crate::specs::Chunked::most_bytes))]
    pub fn new(said: Said, len: usize) -> Result<Due, Flaw>
        ensures { result ≡ due_by said.size said.value_at len }
    {
        match said.size {
            Size::Chunked => Ok(Due::Chunks(Chunk::new(len))),
            Size::Length(n) if n > MOST => Err(Fault::BodyTooLong.at(said.value_at)),
            Size::Length(n) => Ok(Due::Length(n)),
        }
    }

    // Whether `size` bytes of memory have room for all that the body may still have, and `more` bytes can be counted.
    pub fn fits(self, size: usize, more: usize) -> bool
        ensures { result ≡ fits self size more }
    {
        match self {
            Due::Length(due) => due <= size,
            Due::Chunks(chunk) => chunk.fits(size, more),
        }
    }

    // The same without the places of what was read, where they are of no use: they need not be counted on from piece to piece.
    pub fn unplaced(self) -> Due
        ensures { result ≡ unplaced self }
    {
        let Due::Chunks(chunk) = self else {
            return self;
        };
        let first = 0;
        let phase = match chunk.phase {
            Phase::Size { digits, value, .. } => Phase::Size {
                first,
                digits,
                value,
            },
            Phase::SizeLf { value, .. } => Phase::SizeLf { first, value },
            phase => phase,
        };
        Due::Chunks(Chunk {
            phase,
            read: 0,
            ..chunk
        })
    }

    // Reads a piece, and writes the body's bytes that it holds to the front of `out`. Where `out` could not hold all that the body may still have,
    // nothing is read.
    #[tactic(auto, using(crate::proofs::Bodies::chunks_within))]
    pub fn feed(self, out: &mut [u8], piece: &[u8]) -> Result<Fed, Unfit>
        ensures told { result ≡ fed_by self (length out.old) piece.now }
        ensures held { out.new ≡ held_by self out.old piece.now }
        ensures within { IfOk result (λ fed. (fed.written ≤ length out.old) × (fed.taken ≤ length piece.now)) }
    {
        match self {
            Due::Length(due) => feed_counted(due, out, piece),
            Due::Chunks(chunk) => {
                let fed = chunk.feed(out, piece)?;
                Ok(Fed {
                    due: Due::Chunks(fed.chunk),
                    written: fed.written,
                    taken: fed.taken,
                    outcome: fed.outcome,
                })
            }
        }
    }
}

// The same of a body of which so many bytes are due.
fn feed_counted(due: usize, out: &mut [u8], piece: &[u8]) -> Result<Fed, Unfit>
    ensures told { result ≡ fed_by (Length due) (length out.old) piece.now }
    ensures held { out.new ≡ held_by (Length due) out.old piece.now }
{
    if due > out.len() {
        return Err(Unfit);
    }
    let taken = due.min(piece.len());
    let written = put(out, &piece[..taken]);
    let outcome = if taken < due {
        Outcome::More
    } else {
        Outcome::Whole
    };
    Ok(Fed {
        due: Due::Length(due - taken),
        written,
        taken,
        outcome,
    })
}
