// Who is given what, and in which order.
use super::play::{Who, ask, ask_by, get, hand, hand_early, is_busy, memory, nobody_waits, rest};
use crate::Ear;
use connection::state::{Busy, Idle};
use std::process::Abort;
use std::test::Fail;

// The copy of an empty response.
const EMPTY: &[u8] = b"HTTP/1.1 200 OK\r\ncontent-length: 0\r\n\r\n";

#[test]
fn two_clients(rt: HostRuntime) -> Result<(), Fail> {
    let said = b"HTTP/1.1 200 OK\r\n\
        Content-Length: 2\r\n\r\n\
        hi\
        HTTP/1.1 404 Not Found\r\n\
        Transfer-Encoding: chunked\r\n\r\n\
        3\r\nabc\r\n\
        0\r\n\r\n";
    let first = b"HTTP/1.1 200 OK\r\ncontent-length: 2\r\n\r\nhi";
    let second = b"HTTP/1.1 404 Not Found\r\ncontent-length: 3\r\n\r\nabc";
    let mut memory = memory(&rt)?;
    let mut connection = Idle::new();
    ask(&rt, &mut connection, 1)?;
    ask(&rt, &mut connection, 2)?;
    let busy = hand(&rt, connection.hear(said), &mut memory, get(1, 0), first)?;
    let busy = hand(&rt, busy, &mut memory, get(2, 1), second)?;
    nobody_waits(&rt, busy, &mut memory)
}

#[test]
fn early_then_last(rt: HostRuntime) -> Result<(), Fail> {
    let said = b"HTTP/1.1 100 Continue\r\n\r\nHTTP/1.1 200 OK\r\nContent-Length: 0\r\n\r\n";
    let early = b"HTTP/1.1 100 Continue\r\n\r\n";
    let mut memory = memory(&rt)?;
    let mut connection = Idle::new();
    ask(&rt, &mut connection, 5)?;
    let busy = hand_early(&rt, connection.hear(said), &mut memory, get(5, 0), early)?;
    let busy = hand(&rt, busy, &mut memory, get(5, 0), EMPTY)?;
    nobody_waits(&rt, busy, &mut memory)
}

// A response is followed by another one also where a piece ends with it; 199 is early, 101 is the last one.
#[test]
fn early_and_101(rt: HostRuntime) -> Result<(), Fail> {
    let early = b"HTTP/1.1 199 X\r\n\r\n";
    let switching = b"HTTP/1.1 101 Switching\r\nUpgrade: x\r\nConnection: upgrade\r\n\r\n";
    let last = b"HTTP/1.1 204 \r\n\r\n";
    let mut memory = memory(&rt)?;
    let mut connection = Idle::new();
    ask(&rt, &mut connection, 5)?;
    ask(&rt, &mut connection, 6)?;
    let busy = hand_early(&rt, connection.hear(early), &mut memory, get(5, 0), early)?;
    let busy = rest(busy, &mut memory)?.hear(switching);
    let copy = b"HTTP/1.1 101 Switching\r\n\r\n";
    let busy = hand(&rt, busy, &mut memory, get(5, 0), copy)?;
    let busy = rest(busy, &mut memory)?.hear(last);
    let busy = hand(&rt, busy, &mut memory, get(6, 1), last)?;
    nobody_waits(&rt, busy, &mut memory)
}

// None of the early ones has a body, whatever its fields say.
#[test]
fn several_early(rt: HostRuntime) -> Result<(), Fail> {
    let said = b"HTTP/1.1 100 \r\n\r\n\
        HTTP/1.1 103 Hints\r\n\
        Link: </a>\r\n\
        Content-Length: 5\r\n\r\n\
        HTTP/1.1 199 X\r\n\
        Transfer-Encoding: chunked\r\n\r\n\
        HTTP/1.1 200 OK\r\n\
        Content-Length: 0\r\n\r\n";
    let hints = b"HTTP/1.1 103 Hints\r\nlink: </a>\r\n\r\n";
    let mut memory = memory(&rt)?;
    let mut connection = Idle::new();
    ask(&rt, &mut connection, 5)?;
    let busy = connection.hear(said);
    let busy = hand_early(&rt, busy, &mut memory, get(5, 0), b"HTTP/1.1 100 \r\n\r\n")?;
    let busy = hand_early(&rt, busy, &mut memory, get(5, 0), hints)?;
    let busy = hand_early(&rt, busy, &mut memory, get(5, 0), b"HTTP/1.1 199 X\r\n\r\n")?;
    let busy = hand(&rt, busy, &mut memory, get(5, 0), EMPTY)?;
    nobody_waits(&rt, busy, &mut memory)
}

// The first response has 25 bytes, and the second 40.
#[test]
fn byte_by_byte(rt: HostRuntime) -> Result<(), Fail> {
    let said = b"HTTP/1.1 100 Continue\r\n\r\nHTTP/1.1 200 OK\r\nContent-Length: 2\r\n\r\nhi";
    let early = b"HTTP/1.1 100 Continue\r\n\r\n";
    let copy = b"HTTP/1.1 200 OK\r\ncontent-length: 2\r\n\r\nhi";
    let mut memory = memory(&rt)?;
    let mut connection = Idle::new();
    ask(&rt, &mut connection, 5)?;
    for (i, byte) in said.iter().enumerate() {
        let piece = [*byte];
        let mut busy = connection.hear(&piece);
        if i == 24 {
            busy = hand_early(&rt, busy, &mut memory, get(5, 0), early)?;
        }
        if i == 64 {
            busy = hand(&rt, busy, &mut memory, get(5, 0), copy)?;
        }
        connection = rest(busy, &mut memory)?;
    }
    nobody_waits(&rt, connection.hear(b""), &mut memory)
}

// The body of each is read by the method of its own request.
#[test]
fn head_then_get(rt: HostRuntime) -> Result<(), Fail> {
    let said =
        b"HTTP/1.1 200 OK\r\nContent-Length: 5\r\n\r\nHTTP/1.1 200 A\r\nContent-Length: 1\r\n\r\nxHTTP/1.1 200 OK\r\n\r\n";
    let copy = b"HTTP/1.1 200 A\r\ncontent-length: 1\r\n\r\nx";
    let mut memory = memory(&rt)?;
    let mut connection = Idle::new();
    ask_by(&rt, &mut connection, 1, b"HEAD")?;
    ask(&rt, &mut connection, 2)?;
    ask_by(&rt, &mut connection, 1, b"HEAD")?;
    let first = Who {
        method: b"HEAD",
        ..get(1, 0)
    };
    let busy = hand(
        &rt,
        connection.hear(said),
        &mut memory,
        first,
        b"HTTP/1.1 200 OK\r\n\r\n",
    )?;
    let busy = hand(&rt, busy, &mut memory, get(2, 1), copy)?;
    let third = Who { number: 2, ..first };
    let busy = hand(&rt, busy, &mut memory, third, b"HTTP/1.1 200 OK\r\n\r\n")?;
    nobody_waits(&rt, busy, &mut memory)
}

// So many clients ask.
fn ask_many(rt: &impl Abort, connection: &mut Idle<Ear>, first: u64, end: u64) -> Result<(), Fail> {
    for number in first..end {
        ask(rt, connection, client_of(number))?;
    }
    Ok(())
}

// The client whose request has a number.
fn client_of(number: u64) -> usize {
    (number as usize).wrapping_add(100)
}

// Responses come, and are handed over to the requests with the numbers from `first` on.
fn hand_many<'p>(
    rt: &(impl Abort + AllocGlobal),
    mut busy: Busy<'p, Ear>,
    memory: &mut [u8],
    first: u64,
    end: u64,
) -> Result<Busy<'p, Ear>, Fail> {
    for number in first..end {
        busy = hand(rt, busy, memory, get(client_of(number), number), EMPTY)?;
    }
    Ok(busy)
}

// So many responses, as the server says them.
fn responses(rt: &impl AllocGlobal, count: usize) -> Result<Vec<u8>, Fail> {
    let mut said = Vec::new(rt.alloc());
    for _ in 0..count {
        said.extend_from_slice(b"HTTP/1.1 200 OK\r\nContent-Length: 0\r\n\r\n")?;
    }
    Ok(said)
}

// 64 wait, and are given their responses. 64 others wait; 40 of them are given theirs, and 40 more ask, past the end of the ring's places; then the 64
// that wait are given theirs.
#[test]
fn full_queue(rt: HostRuntime) -> Result<(), Fail> {
    let mut memory = memory(&rt)?;
    let said = responses(&rt, 64)?;
    let fewer = responses(&rt, 40)?;
    let mut connection = Idle::new();
    ask_many(&rt, &mut connection, 0, 64)?;
    is_busy(&rt, &mut connection)?;
    let busy = hand_many(&rt, connection.hear(&said), &mut memory, 0, 64)?;
    let mut connection = rest(busy, &mut memory)?;
    ask_many(&rt, &mut connection, 64, 128)?;
    is_busy(&rt, &mut connection)?;
    let busy = hand_many(&rt, connection.hear(&fewer), &mut memory, 64, 104)?;
    let mut connection = rest(busy, &mut memory)?;
    ask_many(&rt, &mut connection, 128, 168)?;
    is_busy(&rt, &mut connection)?;
    let busy = hand_many(&rt, connection.hear(&said), &mut memory, 104, 168)?;
    nobody_waits(&rt, busy, &mut memory)
}
