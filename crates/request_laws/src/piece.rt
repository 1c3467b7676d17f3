// A client's bytes read by calls that are lent piece after piece, with what each call finds told by all the bytes that have come.
ghost use Rattle.std.specs.Prelude.{◌++◌, ◌^◌, ◌<◌, length};
ghost use Rattle.text.specs.Bytes.{Text};
ghost use Rattle.request.specs.Hosts.{names_of};
ghost use Rattle.request_laws.specs.Pieces.{InHand, ReadsOn, Begins};

use message::fault::Unfit;
use request::reading::{Fed, Reading};

// Before the first call nothing has come.
pub fn begins()
    ensures { Begins }
{}

// Reads a piece of a request.
pub fn read_on(
    reading: Reading,
    memory: &mut [u8],
    piece: &[u8],
    servers: &[&[u8]],
) -> Result<Fed, Unfit>
    ensures { (part : Text) → InHand (names_of servers.now) reading memory.old part → length (part ++ piece.now) < 2 ^ 64 → ReadsOn (names_of servers.now) part piece.now memory.new result }
{
    reading.feed(memory, piece, servers)
}
