// The parts of a target's path, as a server with a habit sees them.
ghost use Rattle.std.specs.Prelude.{◌≡◌, ◌≤◌, [], ◌∷◌, map, length, IfOk, IfSome, MatchOption, vec_items};
ghost use Rattle.std.specs.Iterator.{YieldsFirst, item_count};
ghost use Rattle.rules.specs.Rules.{parts_of};
ghost use Rattle.forgiving.specs.Views.{code_in, undone, view_with};
ghost use Rattle.forgiving.specs.Parts.{part_by};

use crate::habit::Habit;
use std::alloc::{AllocError, Global};
use text::mark::pieces;
use text::numeral::hex_pair;
use text::span::span_before;

// The byte that a code at the front stands for.
fn code(t: &[u8]) -> Option<u8>
    ensures is { result ≡ code_in t.now }
    ensures within { IfSome result (λ _. 3 ≤ length t.now) }
{
    match t {
        [b'%', a, b, ..] => hex_pair(*a, *b),
        _ => None,
    }
}

// The first byte that a text stands for, a code undone, and what follows it.
fn undo_first(t: &[u8]) -> Option<(u8, &[u8])>
    ensures { MatchOption result (t.now ≡ []) (λ p. undone t.now ≡ p.0 ∷ undone p.1.now) }
{
    if let Some(byte) = code(t) {
        return Some((byte, &t[3..]));
    }
    let (byte, rest) = t.split_first()?;
    Some((*byte, rest))
}

// The bytes that a text stands for, its codes undone once.
#[derive(Drop)]
struct Undone<'a>(&'a [u8]);

impl Iterator for Undone<'_> {
    type Item = u8;

    ghost next_gives = { YieldsFirst (λ s. undone s.0.now) };

    ghost remaining = { item_count (λ s. undone s.0.now) };

    fn next(&mut self) -> Option<u8> {
        let (byte, rest) = undo_first(self.0)?;
        self.0 = rest;
        Some(byte)
    }
}

// A text with its codes undone once.
fn undo(heap: Global, t: &[u8]) -> Result<Vec<u8>, AllocError>
    ensures { IfOk result (λ u. u.items ≡ undone t.now) }
{
    Undone(t).collect(heap)
}

impl Habit {
    // What is seen of a part.
    fn see_part(self, part: &[u8]) -> &[u8]
        ensures { result.now ≡ part_by self part.now }
    {
        match self {
            Habit::CutParts => &part[..span_before(part, b';')],
            _ => part,
        }
    }

    // What is seen of the parts of a path.
    fn see_parts(self, heap: Global, path: &[u8]) -> Result<Vec<Vec<u8>>, AllocError>
        ensures { IfOk result (λ ps. map vec_items ps.items ≡ map (part_by self) (parts_of path.now)) }
    {
        let mut parts = Vec::new(heap);
        if path.len() <= 1 {
            return Ok(parts);
        }
        for part in pieces(&path[1..], b'/') {
            let seen = Vec::from_slice(heap, self.see_part(part))?;
            parts.push(seen)?;
        }
        Ok(parts)
    }

    // What is seen of a target.
    pub fn see(self, heap: Global, target: &[u8]) -> Result<Vec<Vec<u8>>, AllocError>
        ensures { IfOk result (λ ps. map vec_items ps.items ≡ (view_with self).see target.now) }
    {
        let path = &target[..span_before(target, b'?')];
        match self {
            Habit::UndoneTwice => {
                let once = undo(heap, path)?;
                let twice = undo(heap, &once)?;
                self.see_parts(heap, &twice)
            }
            _ => self.see_parts(heap, path),
        }
    }
}
