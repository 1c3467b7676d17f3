// Lines, cut off the front of a text at the first end that a reader knows, and the lines of a head.
ghost use Rattle.std.specs.Prelude.{◌≡◌, suc, ◌<◌, ◌≤◌, length, IfOk, IfSome};
ghost use Rattle.reader.specs.Reader.{head_of};
ghost use Rattle.forgiving.specs.Readers.{reader_with};
ghost use Rattle.forgiving.specs.Parts.{end_by};
ghost use Rattle.forgiving.specs.Held.{view_split, view_head};

use crate::habit::Habit;
use std::alloc::{AllocError, Global};

// The lines of a head up to its empty line, and what follows that.
#[derive(Drop)]
pub(crate) struct Head<'a> {
    pub(crate) lines: Vec<&'a [u8]>,
    pub(crate) rest: &'a [u8],
}

impl Habit {
    // How many bytes of a line's end a text begins with; 0 where it begins with none.
    fn end_len(self, bytes: &[u8]) -> usize
        ensures is { result ≡ end_by self bytes.now }
        ensures within { result ≤ length bytes.now }
    {
        match (self, bytes) {
            (_, [b'\r', b'\n', ..]) => 2,
            (Habit::LoneLf, [b'\n', ..]) => 1,
            (Habit::LoneCr, [b'\r', _, ..]) => 1,
            _ => 0,
        }
    }

    // The first line, and what follows its end; none where it has not ended.
    fn split(self, bytes: &[u8]) -> Option<(&[u8], &[u8])>
        ensures is { view_split result ≡ (reader_with self).split bytes.now }
        ensures shorter { IfSome result (λ p. length p.1.now < length bytes.now) }
    {
        for i in 0..bytes.len() {
            let n = self.end_len(&bytes[i..]);
            if n > 0 {
                return Some((&bytes[..i], &bytes[i + n..]));
            }
        }
        None
    }

    // The lines of the head that a text begins with; none where it has not ended.
    pub(crate) fn read_head(
        self,
        heap: Global,
        bytes: &[u8],
    ) -> Result<Option<Head<'_>>, AllocError>
        ensures is { IfOk result (λ h. view_head h ≡ head_of (suc (length bytes.now)) (reader_with self) bytes.now) }
        ensures shorter { IfOk result (λ h. IfSome h (λ found. length found.rest.now < length bytes.now)) }
    {
        let mut lines = Vec::new(heap);
        let mut rest = bytes;
        while let Some((line, more)) = self.split(rest) {
            rest = more;
            if line.is_empty() {
                return Ok(Some(Head { lines, rest }));
            }
            lines.push(line)?;
        }
        Ok(None)
    }
}
