// Values with one space for each run of spaces and tabs, byte by byte: how many bytes they then have, and written as far as there is room.
ghost use Rattle.std.specs.Prelude.{◌≡◌, length};
ghost use Rattle.std.specs.Iterator.{YieldsFirst, item_count};
ghost use Rattle.text.specs.Bytes.{Wrote};
ghost use Rattle.text.specs.Trims.{squeezed, squeezed_left};

use crate::value::{is_blank, squeezed_byte};

// The bytes of a value that is being squeezed.
#[derive(Drop)]
pub(crate) struct Squeezed<'a> {
    rest: &'a [u8],
    // whether the byte before was one of a run
    run: bool,
}

impl<'a> Squeezed<'a> {
    fn new(v: &'a [u8]) -> Squeezed<'a>
        ensures { squeezed_left result ≡ squeezed v.now }
    {
        Squeezed {
            rest: v,
            run: false,
        }
    }
}

impl Iterator for Squeezed<'_> {
    type Item = u8;

    ghost next_gives = { YieldsFirst squeezed_left };

    ghost remaining = { item_count squeezed_left };

    fn next(&mut self) -> Option<u8> {
        while let Some((b, rest)) = self.rest.split_first() {
            let squeezed = squeezed_byte(self.run, *b);
            self.rest = rest;
            self.run = is_blank(*b);
            if let Some(x) = squeezed {
                return Some(x);
            }
        }
        None
    }
}

// How many bytes the value has once each run of spaces and tabs is one space.
pub fn squeezed_len(v: &[u8]) -> usize
    ensures { result ≡ length (squeezed v.now) }
{
    Squeezed::new(v).count()
}

// Writes the value with one space for each run of spaces and tabs, as far as there is room.
pub fn put_squeezed(out: &mut [u8], v: &[u8]) -> usize
    ensures { Wrote (squeezed v.now) out.old out.new result }
{
    let mut n: usize = 0;
    // by its index, since what is written through `iter_mut` is not known once the loan has ended: tried with `zip`, and not proved
    for b in Squeezed::new(v) {
        if n == out.len() {
            return n;
        }
        out[n] = b;
        n += 1;
    }
    n
}
