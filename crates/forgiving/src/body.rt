// The body of a request, by a length or by chunks.
ghost use Rattle.std.specs.Prelude.{◌≡◌, IfOk};
ghost use Rattle.text.specs.Bytes.{Text};
ghost use Rattle.forgiving.specs.Common.{by_chunks};
ghost use Rattle.forgiving.specs.Parts.{body_by};
ghost use Rattle.forgiving.specs.Held.{view_fields, with_body, TakesBody};

use crate::field::Field;
use crate::got::Got;
use crate::habit::Habit;
use crate::length::{is_only_chunked, values_of};
use message::chunked::{Chunk, Outcome};
use std::alloc::{AllocError, Global};

// The most bytes that a body by chunks may have.
const MOST: usize = 262_143;

// A body that goes by chunks from the first byte on.
fn read_chunks(heap: Global, bytes: &[u8]) -> Result<Got<'_, Vec<u8>>, AllocError>
    ensures { IfOk result (λ g. TakesBody g (λ m t fs. by_chunks m t fs bytes.now)) }
{
    let mut memory = vec![in heap; 0; MOST]?;
    let Ok(fed) = Chunk::new(0).feed(&mut memory, bytes) else {
        unreachable!()
    };
    match fed.outcome {
        Outcome::More => Ok(Got::More),
        Outcome::Wrong(_) => Ok(Got::Bad),
        Outcome::Whole => {
            // a copy, since a request that is kept would else keep all of the memory
            let body = Vec::from_slice(heap, &memory[..fed.written])?;
            let (_, rest) = bytes.split_at(fed.taken);
            Ok(Got::Whole(body, rest))
        }
    }
}

impl Habit {
    // The body of a request of this method and these fields, and what follows it.
    pub(crate) fn read_body<'a>(
        self,
        heap: Global,
        method: &[u8],
        fields: &[Field],
        bytes: &'a [u8],
    ) -> Result<Got<'a, Vec<u8>>, AllocError>
        ensures { IfOk result (λ g. (t : Text) → with_body method.now t (view_fields fields.now) g ≡ body_by self method.now t (view_fields fields.now) bytes.now) }
    {
        let encodings = values_of(heap, fields, b"transfer-encoding")?;
        let lengths = values_of(heap, fields, b"content-length")?;
        let (encodings, lengths) = (encodings.as_slice(), lengths.as_slice());
        match self.size(method, encodings, lengths) {
            Some(n) if n <= bytes.len() => {
                let body = Vec::from_slice(heap, &bytes[..n])?;
                Ok(Got::Whole(body, &bytes[n..]))
            }
            Some(_) => Ok(Got::More),
            None if is_only_chunked(encodings, lengths) => read_chunks(heap, bytes),
            None => Ok(Got::Bad),
        }
    }
}
