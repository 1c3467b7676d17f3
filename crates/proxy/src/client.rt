// What clients send, and how they go on.
ghost use Rattle.std.specs.Prelude.{◌≡◌, ◌<◌, IfOk, IfSome, Ok, slice_get};
ghost use Rattle.request.specs.Found.{Finding, found_in};
ghost use Rattle.request.specs.SentWriting.{view_sent_request};
ghost use Rattle.proxy.specs.Calls.{ClientSent, GoesOn, entry_of, first_of};
ghost use Rattle.proxy.specs.Model.{client_count, rules_of};
ghost use Rattle.proxy.specs.Slots.{slab_size};
ghost use Rattle.proxy.specs.Stands.{servers_of};
ghost use Rattle.proxy.specs.Steps.{OnFinding, PassSo, ReadSo, left_by, reading_in, refused_by, set_to, taken_by};
ghost use Rattle.rules.specs.Rules.{parts_in, verdict};
ghost use Rattle.proxy.specs.declared.client.Did.TheVariants.{Refused};

use crate::state::{Client, Misuse, Proxy, SLAB};
use message::fault::{Fault, Unfit};
use message::sent_field::blank_fields;
use request::found::Found;
use request::reading::{MEMORY, Reading};
use request::sent::SentRequest;
use request_laws::piece::read_on;
use rules::judge;

// What a client's turn came to, and how many of its unread bytes were taken.
#[derive(Clone, Copy)]
pub struct Turn {
    pub client: usize,
    pub taken: usize,
    pub did: Did,
}

#[derive(Clone, Copy)]
pub enum Did {
    // nothing goes out
    Nothing,
    // its request went out to a server: so many bytes, at the front of the output
    Sent { server: usize, len: usize },
    // its request is refused; with a fault of 1 to 8 its connection ends, and all that was unread is passed over
    Refused(Fault),
}

impl Did {
    // How many of a client's unread bytes are taken, of which so many were read.
    fn taken(self, unread: usize, read: usize) -> usize
        ensures { result ≡ taken_by self unread read }
    {
        match self {
            Did::Refused(fault) if fault.ends_client() => unread,
            _ => read,
        }
    }
}

impl Proxy<'_> {
    // A client sent something: its bytes are unread now, and it is to go on.
    pub fn client_sent(&mut self, client: usize) -> Result<(), Misuse>
        ensures { ClientSent client self.old self.new result }
    {
        if !self.rests() {
            return Err(Misuse::Early);
        }
        if client >= self.clients.len() {
            return Err(Misuse::Nobody);
        }
        let _ = self.line.try_push(client);
        Ok(())
    }

    // The client that goes on next: none where a piece is being heard, or where the gate rests.
    pub fn first(&self) -> Option<usize>
        ensures { result ≡ first_of self.now }
    {
        if self.hears {
            return None;
        }
        self.line.as_slice().first().copied()
    }

    // Whether the rules of a server allow a request.
    fn allows(&self, server: usize, request: &SentRequest) -> bool
        ensures { result ≡ verdict (rules_of (servers_of self.now) server) (view_sent_request request.now).method (parts_in (view_sent_request request.now).target) }
    {
        match self.rules.get(server) {
            Some(rules) => judge(rules, request.method, request.target).allows(),
            None => false,
        }
    }

    // A request is let pass by the language: the rules of its server are asked, and then the connection.
    fn pass(
        &mut self,
        client: usize,
        server: usize,
        request: &SentRequest,
        out: &mut [u8],
    ) -> Result<usize, Fault>
        ensures { PassSo client server (view_sent_request request.now) out.old out.new self.old self.new result }
    {
        if !self.allows(server, request) {
            return Err(Fault::Denied);
        }
        self.connections.ask(client, server, request, out)
    }

    // The client is at something else now.
    #[tactic(auto, using(crate::proofs::Places::set_past))]
    fn set(&mut self, client: usize, now: Client)
        ensures { self.new ≡ set_to client now self.old }
    {
        if client < self.clients.len() {
            self.clients[client] = now;
        }
    }

    // The client, first in the line, waits, or wants more bytes, or was ended: the next in the line goes on.
    fn leaves(&mut self, client: usize, now: Client)
        ensures { self.new ≡ left_by client now self.old }
    {
        self.set(client, now);
        let _ = self.line.pop_at(0);
    }

    // The client's request is refused.
    fn refuse(&mut self, client: usize, fault: Fault) -> Did
        ensures told { result ≡ Refused fault }
        ensures after { self.new ≡ refused_by client fault self.old }
    {
        if fault.ends_client() {
            self.leaves(client, Client::Ended);
        } else {
            self.set(client, Client::Reads(Reading::new()));
        }
        Did::Refused(fault)
    }

    // What was read of a client's request so far has led to this.
    fn take_up(
        &mut self,
        client: usize,
        reading: Reading,
        slot: &[u8],
        out: &mut [u8],
    ) -> Result<Did, Unfit>
        ensures { (f : Finding) → found_in reading slot.now ≡ Ok f → OnFinding client reading out.old out.new self.old self.new result f }
    {
        let mut fields = blank_fields();
        match reading.found(slot, &mut fields)? {
            Found::More => {
                self.leaves(client, Client::Reads(reading));
                Ok(Did::Nothing)
            }
            Found::Fault(flaw) => Ok(self.refuse(client, flaw.fault)),
            Found::Request(server, request) => match self.pass(client, server, &request, out) {
                Ok(len) => {
                    self.leaves(client, Client::Waits);
                    Ok(Did::Sent { server, len })
                }
                Err(fault) => Ok(self.refuse(client, fault)),
            },
        }
    }

    // A client's unread bytes are read, up to the end of the request in hand.
    fn read(
        &mut self,
        client: usize,
        reading: Reading,
        slot: &mut [u8],
        unread: &[u8],
        out: &mut [u8],
    ) -> Result<Turn, Misuse>
        ensures { ReadSo client reading slot.old slot.new unread.now out.old out.new self.old self.new result }
    {
        let fed = read_on(reading, slot, unread, self.names)?;
        let did = self.take_up(client, fed.reading, slot, out)?;
        Ok(Turn {
            client,
            taken: did.taken(unread.len(), fed.taken),
            did,
        })
    }

    // Which client goes on, with so much memory and so much room in the output; or why none does.
    #[tactic(auto, unfolding(request::specs::Reading::memory_size, crate::specs::Slots::slab_size))]
    fn entry(&self, memory: usize, room: usize) -> Result<usize, Misuse>
        ensures is { result ≡ entry_of self.now memory room }
        ensures sized { IfOk result (λ c. memory ≡ slab_size) }
    {
        if self.hears {
            return Err(Misuse::Early);
        }
        if memory != SLAB {
            return Err(Misuse::Memory);
        }
        if room < MEMORY {
            return Err(Misuse::Room);
        }
        self.first().ok_or(Misuse::Rests)
    }

    // How far the request in hand has been read, of a client that reads.
    fn reading_of(&self, client: usize) -> Option<Reading>
        ensures is { result ≡ reading_in (slice_get self.now.clients client) }
        ensures within { IfSome result (λ r. client < client_count) }
    {
        match self.clients.get(client) {
            Some(Client::Reads(reading)) => Some(*reading),
            _ => None,
        }
    }

    // The first in the line goes on: one thing is done. Its unread bytes are lent, and it is said how many of them were taken.
    #[tactic(auto, unfolding(request::specs::Reading::memory_size, crate::specs::Slots::slab_size))]
    pub fn go_on(
        &mut self,
        memory: &mut [u8],
        unread: &[u8],
        out: &mut [u8],
    ) -> Result<Turn, Misuse>
        ensures { GoesOn self.old self.new memory.old memory.new unread.now out.old out.new result }
    {
        let client = self.entry(memory.len(), out.len())?;
        let Some(reading) = self.reading_of(client) else {
            let _ = self.line.pop_at(0);
            return Ok(Turn {
                client,
                taken: 0,
                did: Did::Nothing,
            });
        };
        let start = client * MEMORY;
        let slot = &mut memory[start..start + MEMORY];
        self.read(client, reading, slot, unread, out)
    }
}
