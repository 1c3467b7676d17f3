// How long a body is, by the fields that say so: encodings and lengths.
ghost use Rattle.std.specs.Prelude.{◌≡◌, ◌<◌, ◌≤◌, length, IfOk, IfSome};
ghost use Rattle.reader.specs.Strict.{values_of};
ghost use Rattle.forgiving.specs.Common.{only_chunked};
ghost use Rattle.forgiving.specs.Readers.{octal_digit, octal_after, added};
ghost use Rattle.forgiving.specs.Parts.{number_by, length_by, size_with};
ghost use Rattle.forgiving.specs.Held.{texts, view_fields};

use crate::field::Field;
use crate::habit::Habit;
use std::alloc::{AllocError, Global};
use text::name::{eq, eq_ignore_case};
use text::numeral::{Base, read_number};

// The values of the fields of a name, in order.
pub(crate) fn values_of<'f>(
    heap: Global,
    fields: &'f [Field],
    name: &[u8],
) -> Result<Vec<&'f [u8]>, AllocError>
    ensures { IfOk result (λ vs. texts vs.items ≡ values_of name.now (view_fields fields.now)) }
{
    let mut values = Vec::new(heap);
    for field in fields {
        if eq(&field.name, name) {
            values.push(field.value.as_slice())?;
        }
    }
    Ok(values)
}

// Whether a body goes by chunks: there is one encoding, `chunked`, and no length.
pub(crate) fn is_only_chunked(encodings: &[&[u8]], lengths: &[&[u8]]) -> bool
    ensures { result ≡ only_chunked (texts encodings.now) (texts lengths.now) }
{
    match (encodings, lengths) {
        ([encoding], []) => eq_ignore_case(encoding, b"chunked"),
        _ => false,
    }
}

// What a byte is worth as an octal digit.
fn octal_digit(b: u8) -> Option<u8>
    ensures is { result ≡ octal_digit b }
    ensures small { IfSome result (λ d. d < 8) }
{
    match b {
        b'0'..=b'7' => Some(b - b'0'),
        _ => None,
    }
}

// What octal digits are worth; none where one is none.
fn read_octal(digits: &[u8]) -> Option<usize>
    requires { length digits.now ≤ 6 }
    ensures { result ≡ octal_after 0 digits.now }
{
    let mut value: usize = 0;
    for b in digits {
        let d = octal_digit(*b)?;
        value = value * 8 + usize::from(d);
    }
    Some(value)
}

// The sum of all lengths; none where one is no number.
fn add(lengths: &[&[u8]]) -> Option<usize>
    ensures { result ≡ added (texts lengths.now) }
{
    let mut sum: usize = 0;
    for length in lengths {
        sum = sum.saturating_add(read_number(length, Base::Decimal)?);
    }
    Some(sum)
}

impl Habit {
    // What a length is worth; none where it is no number.
    fn number(self, value: &[u8]) -> Option<usize>
        ensures { result ≡ number_by self value.now }
    {
        match (self, value) {
            (Habit::Octal, [b'0', ..]) if value.len() <= 6 => read_octal(value),
            _ => read_number(value, Base::Decimal),
        }
    }

    // What lengths say together; none where they say nothing.
    fn length(self, lengths: &[&[u8]]) -> Option<usize>
        ensures { result ≡ length_by self (texts lengths.now) }
    {
        match (self, lengths) {
            (_, []) => Some(0),
            (Habit::AddedLengths, _) => add(lengths),
            (Habit::FirstLength, [value, ..]) => self.number(value),
            (Habit::LastLength, [.., value]) => self.number(value),
            (_, [value]) => self.number(value),
            _ => None,
        }
    }

    // How long the body of a request of this method is; none where no length says it.
    pub(crate) fn size(self, method: &[u8], encodings: &[&[u8]], lengths: &[&[u8]]) -> Option<usize>
        ensures { result ≡ size_with self method.now (texts encodings.now) (texts lengths.now) }
    {
        match self {
            Habit::GetBody if eq(method, b"GET") => Some(0),
            Habit::NoChunks => self.length(lengths),
            _ if encodings.is_empty() => self.length(lengths),
            _ => None,
        }
    }
}
