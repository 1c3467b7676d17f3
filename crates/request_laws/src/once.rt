// A client's bytes read by one call, with what is handed out told in words of the grammar.
ghost use Rattle.std.specs.Prelude.{map, length};
ghost use Rattle.request.specs.Found.{view_found};
ghost use Rattle.request_laws.specs.Once.{Explained};

use message::fault::Unfit;
use message::sent_field::SentField;
use request::found::Found;
use request::reading::Reading;

// Reads the first request in a client's bytes.
pub fn read_once<'f, 'm>(
    memory: &'m mut [u8],
    bytes: &[u8],
    servers: &[&[u8]],
    fields: &'f mut [SentField<'m>],
) -> Result<Found<'f, 'm>, Unfit>
    ensures { Explained (map (λ x. x.now) servers.now) (length memory.old) (length fields.old) bytes.now (view_found result) }
{
    let fed = Reading::new().feed(memory, bytes, servers)?;
    fed.reading.found(memory, fields)
}
