// Fields that are sent on, held as they were sent, as parts of the caller's bytes. They come into canonical form as they are written: the name in
// lower case, and one space for each run of spaces and tabs in the value.
ghost use Rattle.std.specs.Prelude.{◌≡◌, [], replicate};
ghost use Rattle.message.specs.SentViews.{view_sent_field, view_sent_fields};

use crate::field::FieldLine;
use text::name::put_lower;
use text::squeezed::{put_squeezed, squeezed_len};

// A field as it was sent, its value without the spaces and tabs at the ends.
#[derive(Clone, Copy)]
pub struct SentField<'a> {
    pub name: &'a [u8],
    pub value: &'a [u8],
}

// A table for the fields of a head that are sent on, to be lent: its length is how many a head may have. Beside `sent::table`, and no generic one: each
// is one array, of an empty value of its own.
#[tactic(auto, unfolding(text::specs::Bytes::lowered, text::specs::Trims::squeezed_after))]
pub fn blank_fields<'a>() -> [SentField<'a>; 64]
    ensures { view_sent_fields result ≡ replicate 64 (record { name = []; value = [] }) }
{
    let none = SentField {
        name: b"",
        value: b"",
    };
    [none; 64]
}

impl FieldLine for SentField<'_> {
    ghost view = { view_sent_field };

    #[tactic(auto, using(text::proofs::Folding::length_lowered))]
    fn name_len(&self) -> usize {
        self.name.len()
    }

    fn value_len(&self) -> usize {
        squeezed_len(self.value)
    }

    fn put_name(&self, out: &mut [u8]) -> usize {
        put_lower(out, self.name)
    }

    fn put_value(&self, out: &mut [u8]) -> usize {
        put_squeezed(out, self.value)
    }
}
