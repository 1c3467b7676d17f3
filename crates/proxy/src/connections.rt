// The connections, one to each server. A type of its own, without the loans of the gate.
ghost use Rattle.std.specs.Prelude.{◌≡◌, Some, slice_get};
ghost use Rattle.std.specs.Option.{option_flatten};
ghost use Rattle.text.specs.Bytes.{Text};
ghost use Rattle.request.specs.SentWriting.{view_sent_request};
ghost use Rattle.proxy.specs.Stands.{ConnPlace};
ghost use Rattle.proxy.specs.Steps.{AsksSo, Opens, opened_of, put_at, taken_at, there_at};

use connection::state::{Idle, Unsent};
use ear::Ear;
use message::fault::Fault;
use request::sent::SentRequest;

// None where a piece of that server is being heard, and behind the servers that there are.
#[derive(Drop)]
pub struct Connections {
    pub(crate) places: [Option<Idle<Ear>>; 8],
}

// The connection to a server, where there is one of that number among so many.
fn opened(server: usize, count: usize) -> Option<Idle<Ear>>
    ensures { (slot : Text) → ConnPlace slot (Some result) (opened_of server count) }
{
    if server < count {
        Some(Idle::new())
    } else {
        None
    }
}

impl Connections {
    // To so many servers, before anything was asked.
    #[tactic(auto, unfolding(crate::specs::Steps::OpensFrom))]
    pub fn new(count: usize) -> Connections
        ensures { Opens count result.places }
    {
        Connections {
            places: [
                opened(0, count),
                opened(1, count),
                opened(2, count),
                opened(3, count),
                opened(4, count),
                opened(5, count),
                opened(6, count),
                opened(7, count),
            ],
        }
    }

    // Takes the connection to a server out, where it is there.
    pub fn take(&mut self, server: usize) -> Option<Idle<Ear>>
        ensures told { result ≡ there_at server self.old.places }
        ensures after { self.new.places ≡ taken_at server self.old.places }
    {
        if server < self.places.len() {
            return self.places[server].take();
        }
        None
    }

    // Puts it back.
    pub fn put(&mut self, server: usize, idle: Idle<Ear>)
        ensures { self.new.places ≡ put_at server idle self.old.places }
    {
        if server < self.places.len() {
            self.places[server] = Some(idle);
        }
    }

    // A client asks a server.
    pub fn ask(
        &mut self,
        client: usize,
        server: usize,
        request: &SentRequest,
        out: &mut [u8],
    ) -> Result<usize, Fault>
        ensures { AsksSo client server (view_sent_request request.now) out.old out.new self.old.places self.new.places result }
    {
        if server >= self.places.len() {
            return Err(Fault::Down);
        }
        let Some(connection) = &mut self.places[server] else {
            return Err(Fault::Down);
        };
        match connection.ask(client, request, out) {
            Ok(len) => Ok(len),
            Err(Unsent::Refused(fault)) => Err(fault),
            // neither can be: a request that is let pass has a short method, and fits into the output
            Err(Unsent::Full(_) | Unsent::Method) => Err(Fault::Busy),
        }
    }
}
