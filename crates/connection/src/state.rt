// A connection. What may happen next is told apart by type: a connection that is at rest may be asked and may hear a piece; one that has
// heard a piece hands over, one by one, the responses that are whole; one that goes down tells all who wait, one by one. So a request can only go out
// where all that was whole has been handed over, and a byte that has come can never reach an owner who asks later.
ghost use Rattle.std.specs.Prelude.{◌≡◌, ◌+◌, ◌<◌, false, IfErr, List, drop, if◌then◌else◌};
ghost use Rattle.text.specs.Bytes.{Text};
ghost use Rattle.request.specs.SentWriting.{view_sent_request};
ghost use Rattle.connection.specs.Model.{Conn, fresh, sent_limit};
ghost use Rattle.connection.specs.Model.{Owner as Whose};
ghost use Rattle.connection.specs.Owners.{pushed};
ghost use Rattle.connection.specs.Stands.{come, admission_of, left_by, Stands, Pends, Falls, AskedSo, TellsSo, NextSo};

use crate::hearing::{Heard, Hearing};
use crate::owners::{Owner, Owners};
use message::fault::Fault;
use request::canonical::Full;
use request::reading::MEMORY;
use request::sent::SentRequest;

// Who waits, how many requests went out, how far the response in hand has been read, and whether the connection is up: a flag and no type of its own,
// since a connection that is down is asked and hears as one that is up.
#[derive(Drop)]
pub struct Connection<H> {
    owners: Owners,
    sent: u64,
    hearing: H,
    up: bool,
}

// All that was whole has been handed over.
#[derive(Drop)]
pub struct Idle<H>(Connection<H>);

// A piece came, of which this is left.
#[derive(Drop)]
pub struct Busy<'p, H> {
    connection: Connection<H>,
    piece: &'p [u8],
}

// The connection went down, and these owners are still to be told.
#[derive(Drop)]
pub struct Falling<H>(Connection<H>);

// A response as it lies in the memory until the next call is lent it, for the first owner that waited; last: no other response to the same request follows.
#[derive(Clone, Copy)]
pub struct Handed<H> {
    pub owner: Owner,
    pub last: bool,
    pub response: H,
}

// What comes next of a piece that was heard.
#[derive(Drop)]
pub enum Next<'p, H> {
    // a whole response; there may be another
    Hand(Busy<'p, H>, Handed<H>),
    // nothing until more comes
    Rest(Idle<H>),
    // the end of the connection
    Fall(Falling<H>),
}

// What comes next on a connection that went down. Its own enum and no Result, since neither end is an error.
#[derive(Drop)]
pub enum Telling<H> {
    // this owner is told
    Tell(Falling<H>, Owner),
    // all were
    Rest(Idle<H>),
}

// Why a request did not go out.
#[derive(Clone, Copy)]
pub enum Unsent {
    // as many wait as may, or the connection is down
    Refused(Fault),
    // the output is too short
    Full(Full),
    // a method of more than 16 letters
    Method,
}

impl From<Fault> for Unsent {
    ghost use Rattle.std.specs.Prelude.{◌≡◌};
    ghost use Rattle.connection.specs.declared.state.Unsent.TheVariants.{Refused};

    ghost from_gives = { λ fault unsent. unsent ≡ Refused fault };

    fn from(fault: Fault) -> Unsent {
        Unsent::Refused(fault)
    }
}

impl From<Full> for Unsent {
    ghost use Rattle.std.specs.Prelude.{◌≡◌};
    ghost use Rattle.connection.specs.declared.state.Unsent.TheVariants.{Full as TooShort};

    ghost from_gives = { λ full unsent. unsent ≡ TooShort full };

    fn from(full: Full) -> Unsent {
        Unsent::Full(full)
    }
}

impl<H: Hearing> Connection<H> {
    // Whether a request goes out, or why none does.
    fn admits(&self) -> Result<(), Fault>
        ensures { result ≡ admission_of self.now }
    {
        if !self.up {
            return Err(Fault::Down);
        }
        if self.owners.is_full() || self.sent == u64::MAX {
            return Err(Fault::Busy);
        }
        Ok(())
    }

    // One more request went out, and its owner waits.
    fn waits_for(&mut self, owner: Owner)
        requires { self.old.sent < sent_limit }
        ensures { self.new ≡ record self.old { owners = pushed self.old.owners owner; sent = self.old.sent + 1 } }
    {
        let _ = self.owners.push(owner);
        self.sent += 1;
    }

    // The first owner was given a response, and leaves if it was the last.
    fn gave(mut self, last: bool) -> Connection<H>
        ensures { result ≡ record self { owners = if last then drop 1 self.owners else self.owners; hearing = H.way.unheard } }
    {
        if last {
            self.owners.pop();
        }
        Connection {
            hearing: H::start(),
            ..self
        }
    }

    // The connection goes down, for good.
    fn fall(self) -> Falling<H>
        ensures { result.0 ≡ record self { hearing = H.way.unheard; up = false } }
    {
        Falling(Connection {
            hearing: H::start(),
            up: false,
            ..self
        })
    }
}

impl<H: Hearing> Idle<H> {
    // Nothing was asked yet.
    pub fn new() -> Idle<H>
        ensures { (memory : Text) → Stands H.way result.0 memory fresh }
    {
        Idle(Connection {
            owners: Owners::new(),
            sent: 0,
            hearing: H::start(),
            up: true,
        })
    }

    // Whether requests can still go out and responses come.
    pub fn is_up(&self) -> bool
        ensures { result ≡ self.now.0.up }
    {
        self.0.up
    }

    // A client asks: where the connection is up and there is room, the request goes out at once, whole, at the front of `out`, and its owner waits behind
    // the others. Says how many bytes went out, or why none did.
    pub fn ask(
        &mut self,
        client: usize,
        request: &SentRequest,
        out: &mut [u8],
    ) -> Result<usize, Unsent>
        ensures { AskedSo H.way client (view_sent_request request.now) out.old out.new self.old.0 self.new.0 result }
    {
        let connection = &mut self.0;
        connection.admits()?;
        let owner = Owner::new(client, connection.sent, request.method).ok_or(Unsent::Method)?;
        let n = request.write(out)?;
        connection.waits_for(owner);
        Ok(n)
    }

    // The server says something.
    pub fn hear<'p>(self, piece: &'p [u8]) -> Busy<'p, H>
        ensures { (memory : Text) (c : Conn) → Stands H.way self.0 memory c → Pends H.way result memory (come piece.now c) }
    {
        let Idle(connection) = self;
        Busy { connection, piece }
    }
}

impl<'p, H: Hearing> Busy<'p, H> {
    // What comes next: responses are read by the method of the first owner that waits. Where the memory lent is not of its size, nothing is done, and
    // the connection is given back.
    #[tactic(auto, using(crate::proofs::Turning::first_waits), unfolding(request::specs::Reading::memory_size))]
    pub fn next(self, memory: &mut [u8]) -> Result<Next<'p, H>, Busy<'p, H>>
        ensures turns { (c : Conn) → Pends H.way self.entry memory.old c → NextSo H.way memory.old memory.new c result }
        ensures refused { IfErr result (λ busy. busy ≡ self.entry) }
        ensures left { memory.new ≡ left_by H.way self.entry memory.old }
    {
        if memory.len() != MEMORY {
            return Err(self);
        }
        let Busy { connection, piece } = self;
        if !connection.up {
            return Ok(Next::Rest(Idle(connection)));
        }
        let Some(owner) = connection.owners.first() else {
            if piece.is_empty() {
                return Ok(Next::Rest(Idle(connection)));
            }
            return Ok(Next::Fall(connection.fall()));
        };
        let (hearing, heard) = connection.hearing.hear(owner.method(), memory, piece);
        match heard {
            Heard::More => Ok(Next::Rest(Idle(Connection {
                hearing,
                ..connection
            }))),
            Heard::Unreadable => Ok(Next::Fall(connection.fall())),
            Heard::Whole { taken, last } => Ok(Next::Hand(
                Busy {
                    connection: connection.gave(last),
                    piece: &piece[taken..],
                },
                Handed {
                    owner,
                    last,
                    response: hearing,
                },
            )),
        }
    }
}

impl<H: Hearing> Falling<H> {
    // The next owner who is to be told that the connection is down, in order.
    pub fn tell(self) -> Telling<H>
        ensures { (c : Conn) (done : List Whose) → Falls H.way self c done → TellsSo H.way c done result }
    {
        let Falling(mut connection) = self;
        match connection.owners.pop() {
            Some(owner) => Telling::Tell(Falling(connection), owner),
            None => Telling::Rest(Idle(connection)),
        }
    }
}
