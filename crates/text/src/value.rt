// Values of fields: trimmed at both ends, and with one space for each run of spaces and tabs.
ghost use Rattle.std.specs.Prelude.{◌≡◌, ◌≤◌, length};
ghost use Rattle.std.specs.List.{suffix_len};
ghost use Rattle.text.specs.Bytes.{blank, placed};
ghost use Rattle.text.specs.Trims.{trimmed_front, trimmed_back, trimmed, squeezed_byte, squeezed};

use crate::span::{Class, span};

// A space or a tab.
pub fn is_blank(b: u8) -> bool
    ensures { result ≡ blank b }
{
    b == b' ' || b == b'\t'
}

fn trim_front<'a>(v: &'a [u8]) -> &'a [u8]
    ensures { result.now ≡ trimmed_front v.now }
{
    &v[span(v, Class::Blank)..]
}

// How many spaces and tabs stand at the end.
fn blanks_behind(v: &[u8]) -> usize
    ensures is { result ≡ suffix_len blank v.now }
    ensures within { result ≤ length v.now }
{
    v.iter().rev().take_while(|b| is_blank(**b)).count()
}

fn trim_back<'a>(v: &'a [u8]) -> &'a [u8]
    ensures { result.now ≡ trimmed_back v.now }
{
    &v[..v.len() - blanks_behind(v)]
}

// The value without the spaces and tabs at its ends, as a part of the caller's bytes.
pub fn trim<'a>(v: &'a [u8]) -> &'a [u8]
    ensures { result.now ≡ trimmed v.now }
{
    trim_back(trim_front(v))
}

// What a byte of a value becomes where the byte before was one of a run of spaces and tabs, or was not.
pub(crate) fn squeezed_byte(run: bool, b: u8) -> Option<u8>
    ensures { result ≡ squeezed_byte run b }
{
    if !is_blank(b) {
        return Some(b);
    }
    if run { None } else { Some(b' ') }
}

// Makes each run of spaces and tabs one space, in place, and says how many bytes the value then has; what lies behind them stays as it was.
pub fn squeeze(v: &mut [u8]) -> usize
    ensures value { result ≡ length (squeezed v.old) }
    ensures after { v.new ≡ placed (squeezed v.old) v.old }
{
    let mut at: usize = 0;
    let mut run = false;
    // By index: a byte is read ahead of where it is written in the same slice, which an iterator over it would hold.
    for i in 0..v.len() {
        let b = v[i];
        if let Some(x) = squeezed_byte(run, b) {
            v[at] = x;
            at += 1;
        }
        run = is_blank(b);
    }
    at
}
