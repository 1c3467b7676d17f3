// Fields, in lines that may go on over others, with names that may be changed before they are judged. A field owns its bytes, since neither a
// line that goes on nor a name in lower case is a part of the text.
ghost use Rattle.std.specs.Prelude.{◌≡◌, ◌≤◌, ◌&&◌, ◌++◌, length, map, IfOk, flat_map};
ghost use Rattle.std.specs.List.{prefix_len, suffix_len};
ghost use Rattle.std.specs.Option.{option_map};
ghost use Rattle.text.specs.Bytes.{blank, name_byte, value_byte, all, nonempty, lower, lowered};
ghost use Rattle.text.specs.Trims.{trimmed, trimmed_back};
ghost use Rattle.forgiving.specs.Readers.{reader_with, goes_on};
ghost use Rattle.forgiving.specs.Parts.{name_by, going_by, field_by};
ghost use Rattle.forgiving.specs.Held.{texts, view_field, view_many};

use crate::habit::Habit;
use crate::word::Word;
use std::alloc::{AllocError, Global};
use text::mark::cut;
use text::name::lower_byte;
use text::value::{is_blank, trim};

// A field as a reader holds it: its name in lower case, its value without the blanks at its ends.
#[derive(Drop)]
pub struct Field {
    pub name: Vec<u8>,
    pub value: Vec<u8>,
}

// How many blanks stand at the end.
fn blanks_behind(t: &[u8]) -> usize
    ensures is { result ≡ suffix_len blank t.now }
    ensures within { result ≤ length t.now }
{
    t.iter().rev().take_while(|b| is_blank(**b)).count()
}

// A text without the blanks at its end.
fn trim_end(t: &[u8]) -> &[u8]
    ensures { result.now ≡ trimmed_back t.now }
{
    &t[..t.len() - blanks_behind(t)]
}

// Whether a line begins with a blank.
fn goes_on(line: &[u8]) -> bool
    ensures { result ≡ goes_on line.now }
{
    match line {
        [] => false,
        [b, ..] => is_blank(*b),
    }
}

// How many lines in front begin with a blank.
fn going_on(lines: &[&[u8]]) -> usize
    ensures is { result ≡ prefix_len (λ l. goes_on l.now) lines.now }
    ensures within { result ≤ length lines.now }
{
    lines.iter().take_while(|line| goes_on(line)).count()
}

// A line and those that go on with it, as one.
fn join(heap: Global, first: &[u8], others: &[&[u8]]) -> Result<Vec<u8>, AllocError>
    ensures { IfOk result (λ line. line.items ≡ first.now ++ flat_map (λ l. l.now) others.now) }
{
    let mut line = Vec::from_slice(heap, first)?;
    for other in others {
        line.extend_from_slice(other)?;
    }
    Ok(line)
}

// Whether a field may have this name and this value.
fn is_field(name: &[u8], value: &[u8]) -> bool
    ensures { result ≡ (nonempty name.now && all name_byte name.now && all value_byte value.now) }
{
    Word::Name.is(name) && Word::Value.spans(value)
}

// A name in lower case.
fn lower_name(heap: Global, name: &[u8]) -> Result<Vec<u8>, AllocError>
    ensures { IfOk result (λ n. n.items ≡ map lower name.now) }
{
    name.iter().map(|b| lower_byte(*b)).collect(heap)
}

impl Field {
    // One with this name, in lower case, and this value, trimmed.
    #[tactic(auto, using(crate::proofs::Names::lower_each))]
    fn new(heap: Global, name: &[u8], value: &[u8]) -> Result<Field, AllocError>
        ensures { IfOk result (λ f. view_field f ≡ record { name = lowered name.now; value = trimmed value.now }) }
    {
        Ok(Field {
            name: lower_name(heap, name)?,
            value: Vec::from_slice(heap, trim(value))?,
        })
    }
}

impl Habit {
    // A name as it is judged.
    fn rename(self, heap: Global, name: &[u8]) -> Result<Vec<u8>, AllocError>
        ensures { IfOk result (λ n. n.items ≡ name_by self name.now) }
    {
        match self {
            Habit::SpaceBeforeColon => Vec::from_slice(heap, trim_end(name)),
            Habit::LowLine => name
                .iter()
                .map(|b| if *b == b'_' { b'-' } else { *b })
                .collect(heap),
            _ => Vec::from_slice(heap, name),
        }
    }

    // How many lines in front go on with the line before them.
    fn continued(self, lines: &[&[u8]]) -> usize
        ensures is { result ≡ going_by self (texts lines.now) }
        ensures within { result ≤ length lines.now }
    {
        match self {
            Habit::GoesOn => going_on(lines),
            _ => 0,
        }
    }

    // The field in a line; none where it is none.
    fn read_field(self, heap: Global, line: &[u8]) -> Result<Option<Field>, AllocError>
        ensures { IfOk result (λ f. option_map view_field f ≡ field_by self line.now) }
    {
        let Some((name, value)) = cut(line, b':') else {
            return Ok(None);
        };
        let name = self.rename(heap, name)?;
        if !is_field(&name, value) {
            return Ok(None);
        }
        Ok(Some(Field::new(heap, &name, value)?))
    }

    // The fields in the lines of a head behind its first; none where one of them is none.
    pub(crate) fn read_fields(
        self,
        heap: Global,
        lines: &[&[u8]],
    ) -> Result<Option<Vec<Field>>, AllocError>
        ensures { IfOk result (λ fs. view_many fs ≡ (reader_with self).fields (texts lines.now)) }
    {
        let mut fields = Vec::new(heap);
        let mut rest = lines;
        while let [first, others @ ..] = rest {
            let n = self.continued(others);
            let line = join(heap, first, &others[..n])?;
            let Some(field) = self.read_field(heap, &line)? else {
                return Ok(None);
            };
            fields.push(field)?;
            rest = &others[n..];
        }
        Ok(Some(fields))
    }
}
