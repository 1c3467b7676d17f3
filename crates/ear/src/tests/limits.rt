// Responses as long as they may be, and longer by one.
use super::play::{ask, breaks, fall, get, hand, memory, nobody_waits, rest, two_ask, two_told};
use connection::state::Idle;
use std::process::Abort;
use std::test::Fail;

// A text made of parts, each so many times.
fn text(rt: &impl AllocGlobal, parts: &[(&[u8], usize)]) -> Result<Vec<u8>, Fail> {
    let mut text = Vec::new(rt.alloc());
    for (part, times) in parts {
        for _ in 0..*times {
            text.extend_from_slice(part)?;
        }
    }
    Ok(text)
}

// One GET waits. The server says a response of so many bytes in two pieces: its client gets this copy, and then nobody waits.
fn gives_long(
    rt: &(impl Abort + AllocGlobal),
    said: &[(&[u8], usize)],
    len: usize,
    copy: &[(&[u8], usize)],
) -> Result<(), Fail> {
    let said = text(rt, said)?;
    let copy = text(rt, copy)?;
    assert_eq!(rt; said.len(), len);
    let mut memory = memory(rt)?;
    let mut connection = Idle::new();
    ask(rt, &mut connection, 1)?;
    let (front, back) = said.split_at(said.len() / 2);
    let connection = rest(connection.hear(front), &mut memory)?;
    let busy = hand(rt, connection.hear(back), &mut memory, get(1, 0), &copy)?;
    nobody_waits(rt, busy, &mut memory)
}

// Two wait. All of these bytes, so many, but the last are said in one piece, and more is wanted; the last one shows that it is no response.
fn breaks_late(
    rt: &(impl Abort + AllocGlobal),
    said: &[(&[u8], usize)],
    len: usize,
) -> Result<(), Fail> {
    let said = text(rt, said)?;
    assert_eq!(rt; said.len(), len);
    let mut memory = memory(rt)?;
    let (front, last) = said.split_at(said.len().saturating_sub(1));
    let connection = rest(two_ask(rt, b"GET")?.hear(front), &mut memory)?;
    two_told(rt, fall(connection.hear(last), &mut memory)?, b"GET")
}

// Heads of 43 bytes; a length of 262,144 is too large.
#[test]
fn longest_length(rt: HostRuntime) -> Result<(), Fail> {
    let head = b"HTTP/1.1 200 OK\r\nContent-Length: 262143\r\n\r\n".as_slice();
    let copied = b"HTTP/1.1 200 OK\r\ncontent-length: 262143\r\n\r\n".as_slice();
    gives_long(
        &rt,
        &[(head, 1), (b"x", 262143)],
        262186,
        &[(copied, 1), (b"x", 262143)],
    )?;
    breaks(
        &rt,
        b"GET",
        b"HTTP/1.1 200 OK\r\nContent-Length: 262144\r\n\r\n",
    )?;
    breaks(
        &rt,
        b"GET",
        b"HTTP/1.1 200 OK\r\nContent-Length: 999999\r\n\r\n",
    )
}

// 3ffff is 262,143: 54 bytes before the data and 7 after it. One byte more in another chunk is too much.
#[test]
fn longest_chunk(rt: HostRuntime) -> Result<(), Fail> {
    let head = b"HTTP/1.1 200 OK\r\nTransfer-Encoding: chunked\r\n\r\n3FFff\r\n".as_slice();
    let copied = b"HTTP/1.1 200 OK\r\ncontent-length: 262143\r\n\r\n".as_slice();
    gives_long(
        &rt,
        &[(head, 1), (b"x", 262143), (b"\r\n0\r\n\r\n", 1)],
        262204,
        &[(copied, 1), (b"x", 262143)],
    )?;
    breaks_late(&rt, &[(head, 1), (b"x", 262143), (b"\r\n1\r\n", 1)], 262202)?;
    breaks(
        &rt,
        b"GET",
        b"HTTP/1.1 200 OK\r\nTransfer-Encoding: chunked\r\n\r\n40000\r\n",
    )
}

// As sent, a body in chunks may have more bytes than the memory: here 262,143 chunks of 10 bytes each, after a head of 47, and the last one of 5.
#[test]
fn most_chunks(rt: HostRuntime) -> Result<(), Fail> {
    let head = b"HTTP/1.1 200 OK\r\nTransfer-Encoding: chunked\r\n\r\n".as_slice();
    let copied = b"HTTP/1.1 200 OK\r\ncontent-length: 262143\r\n\r\n".as_slice();
    gives_long(
        &rt,
        &[(head, 1), (b"00001\r\nx\r\n", 262143), (b"0\r\n\r\n", 1)],
        2621482,
        &[(copied, 1), (b"x", 262143)],
    )
}

// 39 bytes before the value and 4 after it.
#[test]
fn longest_head(rt: HostRuntime) -> Result<(), Fail> {
    let front = b"HTTP/1.1 200 OK\r\nContent-Length: 0\r\nX: ".as_slice();
    gives_long(
        &rt,
        &[(front, 1), (b"y", 20437), (b"\r\n\r\n", 1)],
        20480,
        &[
            (b"HTTP/1.1 200 OK\r\nx: ", 1),
            (b"y", 20437),
            (b"\r\ncontent-length: 0\r\n\r\n", 1),
        ],
    )
}

// With one more, the LF of the empty line would stand at 20,480.
#[test]
fn longer_head(rt: HostRuntime) -> Result<(), Fail> {
    let front = b"HTTP/1.1 200 OK\r\nContent-Length: 0\r\nX: ".as_slice();
    breaks_late(&rt, &[(front, 1), (b"y", 20438), (b"\r\n\r", 1)], 20480)?;
    breaks_late(&rt, &[(b"y", 20480)], 20480)
}

// A head as long as it may be and a body as long as it may be: one byte of the memory is left.
#[test]
fn longest_response(rt: HostRuntime) -> Result<(), Fail> {
    let front = b"HTTP/1.1 200 OK\r\nContent-Length: 262143\r\nX: ".as_slice();
    let end = b"\r\ncontent-length: 262143\r\n\r\n".as_slice();
    gives_long(
        &rt,
        &[(front, 1), (b"y", 20432), (b"\r\n\r\n", 1), (b"z", 262143)],
        282623,
        &[
            (b"HTTP/1.1 200 OK\r\nx: ", 1),
            (b"y", 20432),
            (end, 1),
            (b"z", 262143),
        ],
    )
}

// The fields count as they were sent, dropped ones too: 36 bytes, 63 more fields, and the empty line.
#[test]
fn most_fields(rt: HostRuntime) -> Result<(), Fail> {
    let front = b"HTTP/1.1 200 OK\r\nContent-Length: 0\r\n".as_slice();
    let first = b"HTTP/1.1 200 OK\r\n".as_slice();
    let end = b"content-length: 0\r\n\r\n".as_slice();
    gives_long(
        &rt,
        &[(front, 1), (b"A:\r\n", 63), (b"\r\n", 1)],
        290,
        &[(first, 1), (b"a: \r\n", 63), (end, 1)],
    )?;
    gives_long(
        &rt,
        &[(front, 1), (b"TE:\r\n", 63), (b"\r\n", 1)],
        353,
        &[(first, 1), (end, 1)],
    )?;
    breaks_late(&rt, &[(front, 1), (b"A:\r\n", 64)], 292)?;
    breaks_late(&rt, &[(front, 1), (b"TE:\r\n", 64)], 356)
}

#[test]
fn longest_name(rt: HostRuntime) -> Result<(), Fail> {
    let first = b"HTTP/1.1 204 X\r\n".as_slice();
    gives_long(
        &rt,
        &[(first, 1), (b"A", 64), (b":b\r\n\r\n", 1)],
        86,
        &[(first, 1), (b"a", 64), (b": b\r\n\r\n", 1)],
    )?;
    breaks_late(&rt, &[(first, 1), (b"A", 65), (b":b\r\n", 1)], 85)
}
