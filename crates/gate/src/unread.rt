// What a client sent and no request has taken: bytes that come go behind it, and bytes are taken from its front. Where it begins is held, so that none is
// moved when some are taken; they are moved when more come, where more were taken than are left. So each byte is moved a few times at most, and what was taken
// does not pile up.
ghost use Rattle.std.specs.Prelude.{◌≡◌, ◌≤◌, [], ◌++◌, drop, is_ok, if◌then◌else◌};
ghost use Rattle.std.specs.Vec.{vec_len};

use std::alloc::{AllocError, Global};
use std::marker::Model;

#[derive(Drop)]
pub struct Unread {
    bytes: Vec<u8>,
    start: usize,
}

// Clauses see the bytes that are unread.
impl Model for Unread {
    ghost use Rattle.std.specs.Prelude.{ℕ, ◌≤◌, List, drop};
    ghost use Rattle.std.specs.Vec.{vec_len};

    ghost Value = { List ℕ };

    ghost view = { λ u. drop u.start u.bytes.items };

    ghost invariant = { λ u. u.start ≤ vec_len u.bytes };
}

// Drops the first bytes.
fn drop_front(bytes: &mut Vec<u8>, n: usize)
    requires { n ≤ vec_len bytes.old }
    ensures { bytes.new.items ≡ drop n bytes.old.items }
{
    let left = bytes.len() - n;
    bytes.copy_within(n.., 0);
    bytes.truncate(left);
}

impl Unread {
    // Before the first byte.
    pub fn new(heap: Global) -> Unread
        ensures { result ≡ [] }
    {
        Unread {
            bytes: Vec::new(heap),
            start: 0,
        }
    }

    // The bytes.
    pub fn as_slice(&self) -> &[u8]
        ensures { result.now ≡ self.now }
    {
        &self.bytes[self.start..]
    }

    // Puts bytes behind those that are unread.
    pub fn extend(&mut self, piece: &[u8]) -> Result<(), AllocError>
        ensures { self.new ≡ (if is_ok result then self.old ++ piece.now else self.old) }
    {
        if self.start > self.bytes.len() / 2 {
            drop_front(&mut self.bytes, self.start);
            self.start = 0;
        }
        self.bytes.extend_from_slice(piece)
    }

    // Takes the first bytes, or all where there are not so many.
    pub fn take(&mut self, n: usize)
        ensures { self.new ≡ drop n self.old }
    {
        self.start += n.min(self.bytes.len() - self.start);
    }
}
