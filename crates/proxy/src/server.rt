// What servers say, and who is given it. A server's piece is heard whole before any client goes on.
ghost use Rattle.std.specs.Prelude.{◌≡◌};
ghost use Rattle.request.specs.Writing.{Written};
ghost use Rattle.proxy.specs.Calls.{NextSo, ServerSaid, TellSo, written_of};
ghost use Rattle.proxy.specs.Steps.{freed_by, freed_if_by, rested_by};

use crate::state::{CLIENTS, Client, Misuse, Proxy, SERVERS, SLAB};
use connection::hearing::Hearing;
use connection::owners::Owner;
use connection::state::{Busy, Falling, Handed, Idle, Next as Turned, Telling as Told};
use ear::Ear;
use request::canonical::Full;
use request::reading::{MEMORY, Reading};

// A piece of a server that is being heard.
#[derive(Drop)]
pub struct Heard<'p> {
    pub(crate) server: usize,
    pub(crate) busy: Busy<'p, Ear>,
}

// A server's connection that went down, of whose owners some are still to be told.
#[derive(Drop)]
pub struct Fallen {
    pub server: usize,
    pub(crate) falling: Falling<Ear>,
}

// A response for the client of an owner. It lies in the memory until the next call is lent it.
#[derive(Clone, Copy)]
pub struct Answer {
    pub server: usize,
    pub handed: Handed<Ear>,
}

// What comes next of a piece.
#[derive(Drop)]
pub enum Next<'p> {
    // a response; there may be another
    Answer(Heard<'p>, Answer),
    // the connection went down
    Down(Fallen),
    // nothing more: the clients that were freed go on
    Rest,
}

// What comes next of a connection that went down.
#[derive(Drop)]
pub enum Telling {
    // this owner's client gets the refusal for it
    Tell(Fallen, Owner),
    // all were told: the clients that were freed go on
    Rest,
}

impl Answer {
    // Writes the response to the front of `out`, whole. Nothing in a memory that is not of its size.
    #[tactic(auto, unfolding(request::specs::Reading::memory_size, crate::specs::Slots::slab_size))]
    pub fn write(&self, memory: &[u8], out: &mut [u8]) -> Result<usize, Full>
        ensures { Written (written_of self.now memory.now) out.old out.new result }
    {
        if memory.len() != SLAB || self.server >= SERVERS {
            return Ok(0);
        }
        let start = (CLIENTS + self.server) * MEMORY;
        self.handed
            .response
            .write(&memory[start..start + MEMORY], out)
    }
}

impl Proxy<'_> {
    // A server said something: its piece is to be heard.
    pub fn server_said<'p>(&mut self, server: usize, piece: &'p [u8]) -> Result<Heard<'p>, Misuse>
        ensures { ServerSaid server piece.now self.old self.new result }
    {
        if !self.rests() {
            return Err(Misuse::Early);
        }
        let Some(idle) = self.connections.take(server) else {
            return Err(Misuse::Nobody);
        };
        self.hears = true;
        let busy = idle.hear(piece);
        Ok(Heard { server, busy })
    }

    // A client is freed, and is to go on behind the others in the line.
    fn free(&mut self, client: usize)
        ensures { freed_by client self.old self.new }
    {
        if client < self.clients.len() {
            self.clients[client] = Client::Reads(Reading::new());
        }
        let _ = self.line.try_push(client);
    }

    // After its last response a client is freed.
    fn free_if(&mut self, last: bool, client: usize)
        ensures { freed_if_by last client self.old self.new }
    {
        if last {
            self.free(client);
        }
    }

    // A piece has been heard: the connection is at rest again.
    fn rest(&mut self, server: usize, idle: Idle<Ear>)
        ensures { self.new ≡ rested_by server idle self.old }
    {
        self.connections.put(server, idle);
        self.hears = false;
    }

    // What comes next of a piece. Where the memory lent is not of its size, nothing is done, and the piece is given back.
    pub fn next<'p>(&mut self, heard: Heard<'p>, memory: &mut [u8]) -> Result<Next<'p>, Heard<'p>>
        ensures { NextSo heard.entry self.old self.new memory.old memory.new result }
    {
        if memory.len() != SLAB || heard.server >= SERVERS {
            return Err(heard);
        }
        let Heard { server, busy } = heard;
        let start = (CLIENTS + server) * MEMORY;
        match busy.next(&mut memory[start..start + MEMORY]) {
            Ok(Turned::Hand(busy, handed)) => {
                self.free_if(handed.last, handed.owner.client);
                Ok(Next::Answer(Heard { server, busy }, Answer { server, handed }))
            }
            Ok(Turned::Rest(idle)) => {
                self.rest(server, idle);
                Ok(Next::Rest)
            }
            Ok(Turned::Fall(falling)) => Ok(Next::Down(Fallen { server, falling })),
            Err(busy) => Err(Heard { server, busy }),
        }
    }

    // The next owner who is to be told that the connection went down, in order.
    pub fn tell(&mut self, fallen: Fallen) -> Telling
        ensures { TellSo fallen self.old self.new result }
    {
        let Fallen { server, falling } = fallen;
        match falling.tell() {
            Told::Tell(falling, owner) => {
                self.free(owner.client);
                Telling::Tell(Fallen { server, falling }, owner)
            }
            Told::Rest(idle) => {
                self.rest(server, idle);
                Telling::Rest
            }
        }
    }
}
