// The reader of responses that stands on the gate's connections.
#![tactic(auto)]

ghost use Rattle.std.specs.Prelude.{◌≡◌};
ghost use Rattle.ear.specs.Ways.{heard_of};

use connection::hearing::{Heard, Hearing};
use message::sent_field::blank_fields;
use request::canonical::Full;
use response::reading::{Fed, Reading};

#[cfg(test)]
mod tests;

// How far the response in hand has been read. A type of its own, since the laws that a reader must keep are proved above the reader.
#[derive(Clone, Copy)]
pub struct Ear(Reading);

// What a piece brought, in the connection's words.
fn heard(fed: Fed) -> Heard
    ensures { result ≡ heard_of fed }
{
    match fed.reading {
        Reading::InHead(_) | Reading::InBody(_) => Heard::More,
        Reading::Whole(head, _) => Heard::Whole {
            taken: fed.taken,
            last: head.status.is_last(),
        },
        Reading::Unreadable => Heard::Unreadable,
    }
}

impl Hearing for Ear {
    ghost use Rattle.ear.specs.Ways.{ear_way};
    ghost use Rattle.response_laws.proofs.Steadily.{steady_ear};
    ghost use Rattle.response_laws.proofs.HeadHeard.{none_held};

    ghost way = { ear_way };

    ghost steady = { steady_ear };

    ghost begins = { none_held };

    fn start() -> Ear {
        Ear(Reading::new())
    }

    fn hear(self, method: &[u8], memory: &mut [u8], piece: &[u8]) -> (Ear, Heard) {
        let Ok(fed) = self.0.feed(method, memory, piece) else {
            return (self, Heard::Unreadable);
        };
        (Ear(fed.reading), heard(fed))
    }

    fn write(self, memory: &[u8], out: &mut [u8]) -> Result<usize, Full> {
        let mut fields = blank_fields();
        match self.0.response(memory, &mut fields) {
            Some(response) => response.write(out),
            None => Ok(0),
        }
    }
}
