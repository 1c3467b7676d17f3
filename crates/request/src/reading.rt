// A client's bytes, read as they come. The state is small and goes by value; the bytes lie in lent memory: the head as sent, and behind it the
// body, its chunks undone as they come. Of a piece only what belongs to the request in hand is taken, and a piece of a body costs its own
// length. When the body is whole, the target is judged and brought into canonical form where it lies.
ghost use Rattle.std.specs.Prelude.{◌≡◌, ◌+◌, ◌≤◌, true, length};
ghost use Rattle.request.specs.Hosts.{names_of};
ghost use Rattle.request.specs.Heads.{window};
ghost use Rattle.request.specs.declared.reading.Reading.TheVariants.{InHead};
ghost use Rattle.request.specs.Reading.{memory_size, placed_at, fits_head, fits_body, fits_in, finished, head_step, due_step, front_step, body_step, fed_by, fed_of, held_by};

use crate::head::{Head, WINDOW, judge_head};
use crate::target::{check_target, undo};
use message::body::Due;
use message::chunked::Outcome;
use message::fault::{Flaw, Unfit};

// The memory lent for one client: a head, and a body.
pub const MEMORY: usize = 282624;

// A body that is being read, and the head before it that is let pass: the memory is filled up to a place, and so much of the body is due.
#[derive(Clone, Copy)]
pub struct Body {
    pub head: Head,
    pub filled: usize,
    pub due: Due,
}

// How far a request has been read.
#[derive(Clone, Copy)]
pub enum Reading {
    // the head has not ended; so many bytes of it have come
    InHead(usize),
    // the head has ended, and the body is being read
    InBody(Body),
    // all of it has come, and its body ends at a place; the target is in canonical form
    Whole(Head, usize),
    // the first fault
    Refused(Flaw),
}

// What a piece brought: how far the request has been read now, and how much of the piece belonged to it. Each function that feeds one says beside
// that how much it is at most: the memory and the piece are lent anew to each, and a struct that held them would hold their loans.
#[derive(Clone, Copy)]
pub struct Fed {
    pub reading: Reading,
    pub taken: usize,
}

impl Head {
    // Whether the target lies in a memory of this size.
    fn fits(self, size: usize) -> bool
        ensures { result ≡ fits_head size self }
    {
        self.method < size && self.target < size - self.method
    }

    // The body is whole, and ends at `end`: judges the target, and brings it into canonical form where it lies.
    fn finish(self, end: usize, memory: &mut [u8]) -> Reading
        requires { fits_head (length memory.old) self ≡ true }
        ensures told { result ≡ (finished self end memory.old).reading }
        ensures held { memory.new ≡ (finished self end memory.old).memory }
    {
        let start = self.method + 1;
        let stop = start + self.target;
        if let Err(flaw) = check_target(&memory[start..stop]) {
            return Reading::Refused(flaw.fault.at(start + flaw.place));
        }
        let target = undo(&mut memory[start..stop]);
        Reading::Whole(Head { target, ..self }, end)
    }
}

// Writes bytes into the memory at a place.
fn store(memory: &mut [u8], at: usize, bytes: &[u8])
    requires { at + length bytes.now ≤ length memory.old }
    ensures { memory.new ≡ placed_at at bytes.now memory.old }
{
    memory[at..at + bytes.len()].copy_from_slice(bytes);
}

// A piece of a head, of which `filled` bytes have come: as much of it as the window has room for is stored, and all that has come is judged.
#[tactic(auto, unfolding(crate::specs::Heads::window, crate::specs::Reading::memory_size))]
fn feed_head(filled: usize, memory: &mut [u8], piece: &[u8], servers: &[&[u8]]) -> Fed
    requires { (filled ≤ window) × (length memory.old ≡ memory_size) }
    ensures told { result ≡ fed_by (head_step (names_of servers.now) filled memory.old piece.now) }
    ensures held { memory.new ≡ (head_step (names_of servers.now) filled memory.old piece.now).memory }
    ensures fits { fits_in (length memory.new) result.reading ≡ true }
    ensures within { result.taken ≤ length piece.now }
{
    let n = piece.len().min(WINDOW - filled);
    store(memory, filled, &piece[0..n]);
    match judge_head(&memory[0..filled + n], servers) {
        Err(flaw) => Fed {
            reading: Reading::Refused(flaw),
            taken: n,
        },
        Ok(None) => Fed {
            reading: Reading::InHead(filled + n),
            taken: n,
        },
        Ok(Some(judged)) => Fed {
            reading: Reading::InBody(Body {
                head: judged.head,
                filled: judged.head.len,
                due: judged.due,
            }),
            taken: judged.head.len.saturating_sub(filled),
        },
    }
}

impl Body {
    // Whether a memory of this size has the head's parts, and room for what is due behind those bytes of it that are filled.
    fn fits(self, size: usize) -> bool
        ensures { result ≡ fits_body size self }
    {
        self.head.fits(size) && self.filled <= size && self.due.fits(size - self.filled, 0)
    }

    // A piece of the body: what it holds goes to the free end of the memory, and with the last of it the request is whole.
    fn feed(self, memory: &mut [u8], piece: &[u8]) -> Fed
        requires { fits_body (length memory.old) self ≡ true }
        ensures told { result ≡ fed_by (due_step self memory.old piece.now) }
        ensures held { memory.new ≡ (due_step self memory.old piece.now).memory }
        ensures within { result.taken ≤ length piece.now }
    {
        let Body { head, filled, due } = self;
        let Ok(fed) = due.feed(&mut memory[filled..], piece) else {
            return Fed {
                reading: Reading::InBody(self),
                taken: 0,
            };
        };
        let filled = filled + fed.written;
        let reading = match fed.outcome {
            Outcome::More => Reading::InBody(Body {
                head,
                filled,
                due: fed.due,
            }),
            Outcome::Whole => head.finish(filled, memory),
            Outcome::Wrong(flaw) => Reading::Refused(flaw),
        };
        Fed {
            reading,
            taken: fed.taken,
        }
    }
}

impl Reading {
    // The start of a request.
    pub fn new() -> Reading
        ensures { result ≡ InHead 0 }
    {
        Reading::InHead(0)
    }

    // Whether the memory has the size that is asked for, and the parts of it that the state speaks of are there.
    #[tactic(auto, unfolding(crate::specs::Heads::window, crate::specs::Reading::memory_size))]
    fn fits(self, size: usize) -> bool
        ensures { result ≡ fits_in size self }
    {
        size == MEMORY
            && match self {
                Reading::InHead(filled) => filled <= WINDOW,
                Reading::InBody(body) => body.fits(size),
                Reading::Whole(..) | Reading::Refused(_) => true,
            }
    }

    // A piece of a head, or of nothing.
    fn feed_front(self, memory: &mut [u8], piece: &[u8], servers: &[&[u8]]) -> Fed
        requires { fits_in (length memory.old) self ≡ true }
        ensures told { result ≡ fed_by (front_step (names_of servers.now) self memory.old piece.now) }
        ensures held { memory.new ≡ (front_step (names_of servers.now) self memory.old piece.now).memory }
        ensures fits { fits_in (length memory.new) result.reading ≡ true }
        ensures within { result.taken ≤ length piece.now }
    {
        match self {
            Reading::InHead(filled) => feed_head(filled, memory, piece, servers),
            _ => Fed {
                reading: self,
                taken: 0,
            },
        }
    }

    // A piece of a body, or of nothing.
    fn feed_body(self, memory: &mut [u8], piece: &[u8]) -> Fed
        requires { fits_in (length memory.old) self ≡ true }
        ensures told { result ≡ fed_by (body_step self memory.old piece.now) }
        ensures held { memory.new ≡ (body_step self memory.old piece.now).memory }
        ensures within { result.taken ≤ length piece.now }
    {
        match self {
            Reading::InBody(body) => body.feed(memory, piece),
            _ => Fed {
                reading: self,
                taken: 0,
            },
        }
    }

    // Reads a piece, for servers of these names: takes what belongs to the request in hand, and no byte behind it.
    pub fn feed(self, memory: &mut [u8], piece: &[u8], servers: &[&[u8]]) -> Result<Fed, Unfit>
        ensures told { result ≡ fed_of (names_of servers.now) self memory.old piece.now }
        ensures held { memory.new ≡ held_by (names_of servers.now) self memory.old piece.now }
    {
        if !self.fits(memory.len()) {
            return Err(Unfit);
        }
        let head = self.feed_front(memory, piece, servers);
        let taken = head.taken;
        let body = head.reading.feed_body(memory, &piece[taken..]);
        Ok(Fed {
            reading: body.reading,
            taken: taken + body.taken,
        })
    }
}
