// What brings a connection down, who is told, and what changes nothing.
use super::play::{
    Who, all_told, ask, ask_by, fall, get, hand, hand_early, is_down, memory, nobody_waits,
    request, rest, tell,
};
use crate::Ear;
use connection::hearing::{Heard, Hearing};
use connection::state::{Idle, Unsent};
use std::test::Fail;

// A connection on which nothing was asked goes down with the first byte, and stays down.
#[test]
fn unasked_bytes(rt: HostRuntime) -> Result<(), Fail> {
    let said = b"HTTP/1.1 200 OK\r\nContent-Length: 0\r\n\r\n";
    let mut memory = memory(&rt)?;
    let connection: Idle<Ear> = Idle::new();
    let connection = rest(connection.hear(b""), &mut memory)?;
    let connection = all_told(&rt, fall(connection.hear(said), &mut memory)?)?;
    let connection = rest(connection.hear(said), &mut memory)?;
    let mut connection = rest(connection.hear(b""), &mut memory)?;
    is_down(&rt, &mut connection)
}

// A piece of no bytes changes nothing.
#[test]
fn empty_pieces(rt: HostRuntime) -> Result<(), Fail> {
    let copy = b"HTTP/1.1 200 OK\r\ncontent-length: 1\r\n\r\nx";
    let mut memory = memory(&rt)?;
    let mut connection = Idle::new();
    ask(&rt, &mut connection, 1)?;
    for piece in [
        b"".as_slice(),
        b"HTTP/1.1 200 OK\r",
        b"",
        b"\nContent-Length: 1\r\n\r",
        b"",
        b"\n",
        b"",
    ] {
        connection = rest(connection.hear(piece), &mut memory)?;
    }
    let busy = hand(&rt, connection.hear(b"x"), &mut memory, get(1, 0), copy)?;
    nobody_waits(&rt, busy, &mut memory)
}

// A CR is stray once a byte comes that is no LF.
#[test]
fn unreadable_bytes(rt: HostRuntime) -> Result<(), Fail> {
    let mut memory = memory(&rt)?;
    let mut connection = Idle::new();
    ask(&rt, &mut connection, 7)?;
    ask_by(&rt, &mut connection, 8, b"TRACE")?;
    ask(&rt, &mut connection, 7)?;
    let connection = rest(connection.hear(b"HTTP/1.1 200 OK\r"), &mut memory)?;
    let falling = fall(connection.hear(b"X"), &mut memory)?;
    let falling = tell(&rt, falling, get(7, 0))?;
    let second = Who {
        method: b"TRACE",
        ..get(8, 1)
    };
    let falling = tell(&rt, falling, second)?;
    let falling = tell(&rt, falling, get(7, 2))?;
    all_told(&rt, falling)?;
    Ok(())
}

// The response that was whole is given; then the second client is told.
#[test]
fn response_then_stray(rt: HostRuntime) -> Result<(), Fail> {
    let said =
        b"HTTP/1.1 200 OK\r\nContent-Length: 1\r\n\r\nx\nHTTP/1.1 200 OK\r\nContent-Length: 0\r\n\r\n";
    let copy = b"HTTP/1.1 200 OK\r\ncontent-length: 1\r\n\r\nx";
    let mut memory = memory(&rt)?;
    let mut connection = Idle::new();
    ask(&rt, &mut connection, 1)?;
    ask(&rt, &mut connection, 2)?;
    let busy = hand(&rt, connection.hear(said), &mut memory, get(1, 0), copy)?;
    let falling = tell(&rt, fall(busy, &mut memory)?, get(2, 1))?;
    all_told(&rt, falling)?;
    Ok(())
}

// One waits and two last responses come in one piece: the first is given, the second has nobody who waits.
#[test]
fn one_too_many(rt: HostRuntime) -> Result<(), Fail> {
    let said = b"HTTP/1.1 204 A\r\n\r\nHTTP/1.1 204 B\r\n\r\n";
    let mut memory = memory(&rt)?;
    let mut connection = Idle::new();
    ask(&rt, &mut connection, 1)?;
    let busy = hand(
        &rt,
        connection.hear(said),
        &mut memory,
        get(1, 0),
        b"HTTP/1.1 204 A\r\n\r\n",
    )?;
    all_told(&rt, fall(busy, &mut memory)?)?;
    Ok(())
}

// After an early response its client still waits, and is told.
#[test]
fn early_then_stray(rt: HostRuntime) -> Result<(), Fail> {
    let said = b"HTTP/1.1 100 A\r\n\r\nHTTP/1.0 200 OK\r\n";
    let mut memory = memory(&rt)?;
    let mut connection = Idle::new();
    ask(&rt, &mut connection, 1)?;
    let busy = connection.hear(said);
    let busy = hand_early(&rt, busy, &mut memory, get(1, 0), b"HTTP/1.1 100 A\r\n\r\n")?;
    let falling = tell(&rt, fall(busy, &mut memory)?, get(1, 0))?;
    all_told(&rt, falling)?;
    Ok(())
}

// In a memory of another size nothing is read, and the connection is given back.
#[test]
fn wrong_memory(rt: HostRuntime) -> Result<(), Fail> {
    let said = b"HTTP/1.1 204 A\r\n\r\n";
    let mut memory = memory(&rt)?;
    let mut long = vec![in rt.alloc(); b'.'; 282625]?;
    let mut small = [b'.'; 20];
    let mut connection = Idle::new();
    ask(&rt, &mut connection, 1)?;
    let Err(busy) = connection.hear(said).next(&mut small) else {
        return Err(Fail::new("read in a small memory"));
    };
    assert!(rt; &small == b"....................");
    let Err(busy) = busy.next(&mut long) else {
        return Err(Fail::new("read in a long memory"));
    };
    assert!(rt; long.iter().all(|byte| *byte == b'.'));
    let busy = hand(&rt, busy, &mut memory, get(1, 0), said)?;
    nobody_waits(&rt, busy, &mut memory)
}

// A request that does not go out leaves no owner.
#[test]
fn short_output(rt: HostRuntime) -> Result<(), Fail> {
    let said = b"HTTP/1.1 204 A\r\n\r\n";
    let mut memory = memory(&rt)?;
    let mut connection = Idle::new();
    let mut out = [b'.'; 17];
    let Err(Unsent::Full(full)) = connection.ask(1, &request(b"GET"), &mut out) else {
        return Err(Fail::new("room was found"));
    };
    assert_eq!(rt; full.wanted, 18);
    assert!(rt; &out == b".................");
    ask(&rt, &mut connection, 3)?;
    let busy = hand(&rt, connection.hear(said), &mut memory, get(3, 0), said)?;
    nobody_waits(&rt, busy, &mut memory)
}

#[test]
fn long_method(rt: HostRuntime) -> Result<(), Fail> {
    let mut memory = memory(&rt)?;
    let mut connection: Idle<Ear> = Idle::new();
    let mut out = [b'.'; 40];
    let Err(Unsent::Method) = connection.ask(1, &request(b"ABCDEFGHIJKLMNOPQ"), &mut out) else {
        return Err(Fail::new("a method of 17 letters went out"));
    };
    assert!(rt; &out == b"........................................");
    nobody_waits(&rt, connection.hear(b""), &mut memory)
}

// By itself, before the first byte, the ear has nothing to give; and it reads in no other memory.
#[test]
fn nothing_heard(rt: HostRuntime) {
    let mut small = [b'.'; 20];
    let mut out = [b'.'; 4];
    let ear = Ear::start();
    assert_eq!(rt; ear.hear(b"GET", &mut small, b"H").1, Heard::Unreadable);
    assert!(rt; &small == b"....................");
    assert!(rt; matches!(ear.write(&small, &mut out), Ok(0)));
    assert!(rt; &out == b"....");
}
