// The calls of a connection, one by one, with what holds over whole runs of them: from any moment that calls can lead to, by whatever was asked and said
// before, each leads to a moment of which all that is promised holds.
ghost use Rattle.std.specs.Prelude.{◌∷◌, ◌++◌, [], List};
ghost use Rattle.text.specs.Bytes.{Text};
ghost use Rattle.request.specs.SentWriting.{view_sent_request};
ghost use Rattle.connection.specs.Model.{Conn, Event, fresh, says};
ghost use Rattle.connection.specs.Model.{Owner as Whose};
ghost use Rattle.connection.specs.Stands.{AskedSo};
ghost use Rattle.connection_laws.specs.Calls.{At, Amid, Down, AskedAt, NextAt, ToldAt};

use connection::hearing::Hearing;
use connection::state::{Busy, Falling, Idle, Next, Telling, Unsent};
use request::sent::SentRequest;

// A connection on which nothing was asked yet.
pub fn open<H: Hearing>() -> Idle<H>
    ensures { (memory : Text) → At H.way result memory [] fresh }
{
    Idle::new()
}

// A client asks.
pub fn ask<H: Hearing>(
    idle: &mut Idle<H>,
    client: usize,
    request: &SentRequest,
    out: &mut [u8],
) -> Result<usize, Unsent>
    ensures asked { AskedSo H.way client (view_sent_request request.now) out.old out.new idle.old.0 idle.new.0 result }
    ensures promised { (memory : Text) (vs : List Event) (c : Conn) → At H.way idle.old memory vs c → AskedAt H.way client (view_sent_request request.now) idle.new memory vs c result }
{
    idle.ask(client, request, out)
}

// The server says something.
pub fn hear<'p, H: Hearing>(idle: Idle<H>, piece: &'p [u8]) -> Busy<'p, H>
    ensures { (memory : Text) (vs : List Event) (c : Conn) → At H.way idle memory vs c → (d : Conn) × Amid H.way result memory (vs ++ (says piece.now ∷ [])) d }
{
    idle.hear(piece)
}

// What comes next of what it said.
pub fn next<'p, H: Hearing>(
    busy: Busy<'p, H>,
    memory: &mut [u8],
) -> Result<Next<'p, H>, Busy<'p, H>>
    ensures { (vs : List Event) (c : Conn) → Amid H.way busy.entry memory.old vs c → NextAt H.way memory.old memory.new vs c result }
{
    busy.next(memory)
}

// The next owner who is told that the connection went down.
pub fn tell<H: Hearing>(falling: Falling<H>) -> Telling<H>
    ensures { (vs : List Event) (c : Conn) (done : List Whose) → Down H.way falling vs c done → ToldAt H.way vs c done result }
{
    falling.tell()
}
