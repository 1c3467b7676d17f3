// The gate's state, and whether it rests.
ghost use Rattle.std.specs.Prelude.{◌≡◌};
ghost use Rattle.proxy.specs.Calls.{OpensSo, rests_now};

use crate::connections::Connections;
use arrayvec::ArrayVec;
use message::fault::Unfit;
use request::reading::{MEMORY, Reading};
use rules::Rule;

// There are so many clients, numbered from 0.
pub const CLIENTS: usize = 16;

// And at most so many servers, numbered from 0.
pub const SERVERS: usize = 8;

// The memory that is lent to each call: a slot for each client, and then one for each connection.
pub const SLAB: usize = (CLIENTS + SERVERS) * MEMORY;

// A call that was not in its place. It changed nothing.
#[derive(Clone, Copy, Debug, PartialEq, Eq)]
pub enum Misuse {
    // something else is to be done first
    Early,
    // nothing is to be done
    Rests,
    // there is no client or server of that number
    Nobody,
    // more servers than there may be, or not as many lists of rules
    Misfit,
    // the memory is not of its size
    Memory,
    // the output has less room than a request may want
    Room,
}

impl From<Unfit> for Misuse {
    ghost use Rattle.std.specs.Prelude.{◌≡◌};
    ghost use Rattle.proxy.specs.declared.state.Misuse.TheVariants.{Memory};

    ghost from_gives = { λ unfit misuse. misuse ≡ Memory };

    fn from(_unfit: Unfit) -> Misuse {
        Misuse::Memory
    }
}

// What a client is at.
#[derive(Clone, Copy)]
pub enum Client {
    // its request is being read
    Reads(Reading),
    // its request went out, and the last response to it has not come
    Waits,
    // its connection was ended
    Ended,
}

// names, rules: of the servers, in their order; connections: none where a piece of that server is being heard; line: the clients that are to go on,
// as many at most as the owners of one connection; hears: whether a piece is being heard
#[derive(Drop)]
pub struct Proxy<'s> {
    pub(crate) names: &'s [&'s [u8]],
    pub(crate) rules: &'s [&'s [Rule<'s>]],
    pub(crate) clients: [Client; 16],
    pub(crate) connections: Connections,
    pub(crate) line: ArrayVec<usize, 64>,
    pub(crate) hears: bool,
}

impl<'s> Proxy<'s> {
    // The gate before the first event.
    pub fn new(names: &'s [&'s [u8]], rules: &'s [&'s [Rule<'s>]]) -> Result<Proxy<'s>, Misuse>
        ensures { OpensSo names.now rules.now result }
    {
        if names.len() > SERVERS || rules.len() != names.len() {
            return Err(Misuse::Misfit);
        }
        Ok(Proxy {
            names,
            rules,
            clients: [Client::Reads(Reading::new()); 16],
            connections: Connections::new(names.len()),
            line: ArrayVec::new(),
            hears: false,
        })
    }

    // Whether an event may come: nothing is to be done.
    pub fn rests(&self) -> bool
        ensures { result ≡ rests_now self.now }
    {
        !self.hears && self.line.is_empty()
    }
}
