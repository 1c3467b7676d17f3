// How responses are read, as a trait: a connection is proved once, for any reader of responses that is steady. Its value is the small state of a
// response that is being read; the bytes lie in memory that the connection's caller lends. Chunks are undone as they come, so not all bytes that
// the server said are kept: which part of a response a state and a memory stand for is a relation that the reader declares.
ghost use Rattle.std.specs.Prelude.{◌≡◌, [], length};
ghost use Rattle.text.specs.Bytes.{Text};
ghost use Rattle.request.specs.Reading.{memory_size};
ghost use Rattle.connection.specs.Model.{Steady};
ghost use Rattle.connection.specs.Hearing.{Way, Within, Hears};
ghost use Rattle.request.specs.Writing.{Written};

use request::canonical::Full;

// What a piece brought. Three outcomes, of which none ends the caller: what cannot be read is told to all who wait.
#[derive(Clone, Copy, Debug, PartialEq, Eq)]
pub enum Heard {
    // all of it was taken, and more is wanted
    More,
    // with so many bytes of it the response is whole; whether it is the last one to its request
    Whole { taken: usize, last: bool },
    // the response cannot be read
    Unreadable,
}

pub trait Hearing: Copy {
    // how responses are read, all at once and piece by piece
    ghost way: { Way Self };

    fn start() -> Self
        ensures { result ≡ way.unheard };

    // Reads a piece of a response to a request of this method: takes what belongs to the response in hand, and no byte behind it.
    fn hear(self, method: &[u8], memory: &mut [u8], piece: &[u8]) -> (Self, Heard)
        ensures within { Within (length piece.now) result.1 }
        ensures left { memory.new ≡ way.leaves self memory.old method.now piece.now }
        ensures heard { (part : Text) → length memory.old ≡ memory_size → way.holds self memory.old method.now part → Hears way method.now part piece.now result.0 memory.new result.1 };

    // Writes a whole response to the front of `out`, as it goes to the client.
    fn write(self, memory: &[u8], out: &mut [u8]) -> Result<usize, Full>
        ensures { Written (way.text self memory.now) out.old out.new result };

    ghost steady: { Steady way.ear };

    // before the first byte, whatever the memory holds, nothing has come
    ghost begins: { (memory method : Text) → way.holds way.unheard memory method [] };
}
