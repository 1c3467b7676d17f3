// A server's bytes, read as they come. The state is small and goes by value; the bytes lie in lent memory: the head as sent, and behind it the body, its
// chunks undone as they come. Of a piece only what belongs to the response in hand is taken, and a piece of a body costs its own length.
ghost use Rattle.std.specs.Prelude.{◌≡◌, ◌+◌, ◌≤◌, true, IfOk, length};
ghost use Rattle.request.specs.Heads.{window};
ghost use Rattle.request.specs.Reading.{memory_size, placed_at};
ghost use Rattle.response.specs.declared.reading.Reading.TheVariants.{InHead};
ghost use Rattle.response.specs.Reading.{fits_in, head_step, due_step, front_step, body_step, fed_by, fed_of, held_by};

use crate::head::{Head, judge_head};
use message::body::Due;
use message::chunked::Outcome;
use message::fault::Unfit;
use request::head::WINDOW;
use request::reading::MEMORY;

// A body that is being read, and the head before it: the memory is filled up to a place, and so much of the body is due.
#[derive(Clone, Copy)]
pub struct Body {
    pub head: Head,
    pub filled: usize,
    pub due: Due,
}

// How far a response has been read.
#[derive(Clone, Copy)]
pub enum Reading {
    // the head has not ended; so many bytes of it have come
    InHead(usize),
    // the head has ended, and the body is being read
    InBody(Body),
    // all of it has come, and its body ends at a place
    Whole(Head, usize),
    Unreadable,
}

// What a piece brought: how far the response has been read now, and how much of the piece belonged to it.
#[derive(Clone, Copy)]
pub struct Fed {
    pub reading: Reading,
    pub taken: usize,
}

// Writes bytes into the memory at a place.
fn store(memory: &mut [u8], at: usize, bytes: &[u8])
    requires { at + length bytes.now ≤ length memory.old }
    ensures { memory.new ≡ placed_at at bytes.now memory.old }
{
    memory[at..at + bytes.len()].copy_from_slice(bytes);
}

// A piece of a head, of which `filled` bytes have come: as much of it as the window has room for is stored, and all that has come is judged.
#[tactic(auto, unfolding(request::specs::Heads::window, request::specs::Reading::memory_size))]
fn feed_head(filled: usize, method: &[u8], memory: &mut [u8], piece: &[u8]) -> Fed
    requires { (filled ≤ window) × (length memory.old ≡ memory_size) }
    ensures told { result ≡ fed_by (head_step method.now filled memory.old piece.now) }
    ensures held { memory.new ≡ (head_step method.now filled memory.old piece.now).memory }
    ensures fits { fits_in (length memory.new) result.reading ≡ true }
    ensures within { result.taken ≤ length piece.now }
{
    let n = piece.len().min(WINDOW - filled);
    store(memory, filled, &piece[0..n]);
    match judge_head(&memory[0..filled + n], method) {
        Err(_) => Fed {
            reading: Reading::Unreadable,
            taken: n,
        },
        Ok(None) => Fed {
            reading: Reading::InHead(filled + n),
            taken: n,
        },
        Ok(Some(judged)) => Fed {
            reading: Reading::InBody(Body {
                head: judged.head,
                filled: judged.head.len,
                due: judged.due,
            }),
            taken: judged.head.len.saturating_sub(filled),
        },
    }
}

impl Body {
    // A piece of the body: takes what belongs to it. Its bytes go to the free end of the memory.
    fn feed(self, memory: &mut [u8], piece: &[u8]) -> Fed
        requires { self.filled ≤ length memory.old }
        ensures told { result ≡ fed_by (due_step self memory.old piece.now) }
        ensures held { memory.new ≡ (due_step self memory.old piece.now).memory }
        ensures within { result.taken ≤ length piece.now }
    {
        let Body { head, filled, due } = self;
        let Ok(fed) = due.feed(&mut memory[filled..], piece) else {
            return Fed {
                reading: Reading::InBody(self),
                taken: 0,
            };
        };
        let filled = filled + fed.written;
        let due = fed.due.unplaced();
        let reading = match fed.outcome {
            Outcome::More => Reading::InBody(Body { head, filled, due }),
            Outcome::Whole => Reading::Whole(head, filled),
            Outcome::Wrong(_) => Reading::Unreadable,
        };
        Fed {
            reading,
            taken: fed.taken,
        }
    }
}

impl Reading {
    // The start of a response.
    pub fn new() -> Reading
        ensures { result ≡ InHead 0 }
    {
        Reading::InHead(0)
    }

    // Whether the memory has the size that is asked for, and the parts of it that the state speaks of are there.
    #[tactic(auto, unfolding(request::specs::Heads::window, request::specs::Reading::memory_size))]
    fn fits(self, size: usize) -> bool
        ensures { result ≡ fits_in size self }
    {
        size == MEMORY
            && match self {
                Reading::InHead(filled) => filled <= WINDOW,
                Reading::InBody(body) => body.filled <= size,
                Reading::Whole(..) | Reading::Unreadable => true,
            }
    }

    // A piece of a head, or of nothing.
    fn feed_front(self, method: &[u8], memory: &mut [u8], piece: &[u8]) -> Fed
        requires { fits_in (length memory.old) self ≡ true }
        ensures told { result ≡ fed_by (front_step method.now self memory.old piece.now) }
        ensures held { memory.new ≡ (front_step method.now self memory.old piece.now).memory }
        ensures fits { fits_in (length memory.new) result.reading ≡ true }
        ensures within { result.taken ≤ length piece.now }
    {
        match self {
            Reading::InHead(filled) => feed_head(filled, method, memory, piece),
            _ => Fed {
                reading: self,
                taken: 0,
            },
        }
    }

    // A piece of a body, or of nothing.
    fn feed_body(self, memory: &mut [u8], piece: &[u8]) -> Fed
        requires { fits_in (length memory.old) self ≡ true }
        ensures told { result ≡ fed_by (body_step self memory.old piece.now) }
        ensures held { memory.new ≡ (body_step self memory.old piece.now).memory }
        ensures within { result.taken ≤ length piece.now }
    {
        match self {
            Reading::InBody(body) => body.feed(memory, piece),
            _ => Fed {
                reading: self,
                taken: 0,
            },
        }
    }

    // Reads a piece of a response to a request of this method: takes what belongs to the response in hand, and no byte behind it.
    pub fn feed(self, method: &[u8], memory: &mut [u8], piece: &[u8]) -> Result<Fed, Unfit>
        ensures told { result ≡ fed_of method.now self memory.old piece.now }
        ensures held { memory.new ≡ held_by method.now self memory.old piece.now }
        ensures within { IfOk result (λ fed. fed.taken ≤ length piece.now) }
    {
        if !self.fits(memory.len()) {
            return Err(Unfit);
        }
        let head = self.feed_front(method, memory, piece);
        let taken = head.taken;
        let body = head.reading.feed_body(memory, &piece[taken..]);
        Ok(Fed {
            reading: body.reading,
            taken: taken + body.taken,
        })
    }
}
