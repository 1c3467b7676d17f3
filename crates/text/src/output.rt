// Writing into an output that the caller lends. A write goes to the front of what is lent; the caller lends the free end on to the next.
ghost use Rattle.text.specs.Bytes.{Wrote};

// Writes as much of `bytes` as there is room for, and says how much that was; what lies behind it stays as it was.
pub fn put(out: &mut [u8], bytes: &[u8]) -> usize
    ensures { Wrote bytes.now out.old out.new result }
{
    let n = bytes.len().min(out.len());
    out[0..n].copy_from_slice(&bytes[0..n]);
    n
}
