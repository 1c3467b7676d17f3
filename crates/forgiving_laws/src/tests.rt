// Each habit on a text that is not canonical, beside the common reader or view on the same text: they differ. What each finds is worked out by hand.
use crate::read_text;
use forgiving::habit::Habit;
use report::tell;
use std::alloc::{AllocError, Global};
use std::process::Abort;

// Those with a habit of viewing a path read as the common reader does, and those with a habit of reading view as the common view does.
const COMMON_READER: Habit = Habit::CutParts;

const COMMON_VIEW: Habit = Habit::LoneLf;

// The requests that a server with this habit cuts out of a text, as lines.
fn lines(heap: Global, habit: Habit, text: &[u8]) -> Result<Vec<u8>, AllocError> {
    let mut told = Vec::new(heap);
    for request in &read_text(habit, heap, text)? {
        tell(request, &mut told)?;
    }
    Ok(told)
}

// A server with the habit reads these lines in the text, and the common reader those.
fn differs(
    rt: &(impl Abort + AllocGlobal),
    habit: Habit,
    text: &[u8],
    own: &[u8],
    common: &[u8],
) -> Result<(), AllocError> {
    assert!(rt; lines(rt.alloc(), habit, text)?.as_slice() == own);
    assert!(rt; lines(rt.alloc(), COMMON_READER, text)?.as_slice() == common);
    Ok(())
}

// The parts that a server with this habit sees in a target, each after a bar.
fn parts(heap: Global, habit: Habit, target: &[u8]) -> Result<Vec<u8>, AllocError> {
    let mut seen = Vec::new(heap);
    for part in &habit.see(heap, target)? {
        seen.push(b'|')?;
        seen.extend_from_slice(part)?;
    }
    Ok(seen)
}

#[test]
fn lone_lf_ends_a_line(rt: HostRuntime) -> Result<(), AllocError> {
    let text = b"GET / HTTP/1.1\nhost: h\r\n\n";
    differs(
        &rt,
        Habit::LoneLf,
        text,
        b"  GET / HTTP/1.1\n  host: h\n",
        b"",
    )
}

#[test]
fn lone_cr_ends_a_line(rt: HostRuntime) -> Result<(), AllocError> {
    let text = b"GET / HTTP/1.1\rhost: h\r\n\r\n";
    differs(
        &rt,
        Habit::LoneCr,
        text,
        b"  GET / HTTP/1.1\n  host: h\n",
        b"",
    )?;
    // as the last byte so far it is waited on
    differs(&rt, Habit::LoneCr, b"GET / HTTP/1.1\rhost: h\r\r", b"", b"")
}

#[test]
fn empty_lines_are_skipped(rt: HostRuntime) -> Result<(), AllocError> {
    let text = b"\r\n\r\nGET / HTTP/1.1\r\nhost: h\r\n\r\n";
    differs(
        &rt,
        Habit::EmptyLines,
        text,
        b"  GET / HTTP/1.1\n  host: h\n",
        b"",
    )
}

#[test]
fn space_before_the_colon_is_cut(rt: HostRuntime) -> Result<(), AllocError> {
    let text = b"GET / HTTP/1.1\r\nHost \t: h\r\n\r\n";
    differs(
        &rt,
        Habit::SpaceBeforeColon,
        text,
        b"  GET / HTTP/1.1\n  host: h\n",
        b"",
    )
}

#[test]
fn low_line_is_a_hyphen(rt: HostRuntime) -> Result<(), AllocError> {
    let text = b"GET / HTTP/1.1\r\nX_Member_: a_b\r\n\r\n";
    differs(
        &rt,
        Habit::LowLine,
        text,
        b"  GET / HTTP/1.1\n  x-member-: a_b\n",
        b"",
    )
}

#[test]
fn line_goes_on_with_the_last(rt: HostRuntime) -> Result<(), AllocError> {
    let text = b"GET / HTTP/1.1\r\na: 1 \r\n\t 2\r\n 3 \r\nb: 4\r\n\r\n";
    differs(
        &rt,
        Habit::GoesOn,
        text,
        b"  GET / HTTP/1.1\n  a: 1 \t 2 3\n  b: 4\n",
        b"",
    )?;
    // as the first line of fields it goes on with none
    differs(
        &rt,
        Habit::GoesOn,
        b"GET / HTTP/1.1\r\n a: 1\r\n\r\n",
        b"",
        b"",
    )
}

#[test]
fn length_is_octal_after_a_zero(rt: HostRuntime) -> Result<(), AllocError> {
    let text = b"POST / HTTP/1.1\r\ncontent-length: 010\r\n\r\n0123456789";
    let head = b"  POST / HTTP/1.1\n  content-length: 010\n";
    let mut own = Vec::from_slice(rt.alloc(), head)?;
    own.extend_from_slice(b"  body 8 3031323334353637\n")?;
    let mut common = Vec::from_slice(rt.alloc(), head)?;
    common.extend_from_slice(b"  body 10 30313233343536373839\n")?;
    differs(&rt, Habit::Octal, text, &own, &common)?;
    // with a digit 9 it is no length
    let text =
        b"POST / HTTP/1.1\r\ncontent-length: 01\r\n\r\nxPOST / HTTP/1.1\r\ncontent-length: 09\r\n\r\n123456789";
    let first = b"  POST / HTTP/1.1\n  content-length: 01\n  body 1 78\n";
    let mut both = Vec::from_slice(rt.alloc(), first)?;
    both.extend_from_slice(
        b"  POST / HTTP/1.1\n  content-length: 09\n  body 9 313233343536373839\n",
    )?;
    differs(&rt, Habit::Octal, text, first, &both)
}

#[test]
fn one_of_two_lengths_counts_or_both(rt: HostRuntime) -> Result<(), AllocError> {
    let text = b"POST / HTTP/1.1\r\ncontent-length: 2\r\ncontent-length: 3\r\n\r\nabcde";
    let head = b"  POST / HTTP/1.1\n  content-length: 2\n  content-length: 3\n";
    let mut first = Vec::from_slice(rt.alloc(), head)?;
    first.extend_from_slice(b"  body 2 6162\n")?;
    differs(&rt, Habit::FirstLength, text, &first, b"")?;
    let mut last = Vec::from_slice(rt.alloc(), head)?;
    last.extend_from_slice(b"  body 3 616263\n")?;
    differs(&rt, Habit::LastLength, text, &last, b"")?;
    let mut both = Vec::from_slice(rt.alloc(), head)?;
    both.extend_from_slice(b"  body 5 6162636465\n")?;
    differs(&rt, Habit::AddedLengths, text, &both, b"")
}

#[test]
fn body_of_a_get_is_passed_over(rt: HostRuntime) -> Result<(), AllocError> {
    let text = b"GET / HTTP/1.1\r\ncontent-length: 19\r\n\r\nGET /b HTTP/1.1\r\n\r\n";
    let own = b"  GET / HTTP/1.1\n  content-length: 19\n  GET /b HTTP/1.1\n";
    let common =
        b"  GET / HTTP/1.1\n  content-length: 19\n  body 19 474554202f6220485454502f312e310d0a0d0a\n";
    differs(&rt, Habit::GetBody, text, own, common)
}

#[test]
fn chunked_is_never_understood(rt: HostRuntime) -> Result<(), AllocError> {
    let text = b"POST / HTTP/1.1\r\nTransfer-Encoding: Chunked\r\n\r\n1\r\nx\r\n0\r\n\r\n";
    let own = b"  POST / HTTP/1.1\n  transfer-encoding: Chunked\n  body 0\n";
    let common = b"  POST / HTTP/1.1\n  transfer-encoding: Chunked\n  body 1 78\n";
    differs(&rt, Habit::NoChunks, text, own, common)
}

#[test]
fn codes_are_undone_twice(rt: HostRuntime) -> Result<(), AllocError> {
    let heap = rt.alloc();
    let target = b"/%2561/%4%2531%252fb%?%2561";
    assert!(rt; parts(heap, Habit::UndoneTwice, target)?.as_slice() == b"|a|%41|b%".as_slice());
    assert!(rt;
        parts(heap, COMMON_VIEW, target)?.as_slice() == b"|%2561|%4%2531%252fb%".as_slice()
    );
    Ok(())
}

#[test]
fn parts_are_cut(rt: HostRuntime) -> Result<(), AllocError> {
    let heap = rt.alloc();
    let target = b"/a;x/;y/b;;?c;d";
    assert!(rt; parts(heap, Habit::CutParts, target)?.as_slice() == b"|a||b".as_slice());
    assert!(rt; parts(heap, COMMON_VIEW, target)?.as_slice() == b"|a;x|;y|b;;".as_slice());
    assert!(rt; parts(heap, Habit::CutParts, b"/")?.is_empty());
    Ok(())
}
