// Whole plays, byte for byte: requests in their canonical form, and the copies of responses.
use super::play::{
    ASKED, ASKS, COPY, SAID, SERVER, all_told, answers, asked_by, comes, falls, goes_out,
    heard_out, in_vain, next, opened, refused, rests, says,
};
use message::fault::Fault;
use proxy::server::Next;
use std::test::Fail;

// The second piece of a client: the rest of its first request, with 52 bytes, and all of the next one.
const REST: &[u8] = b"TP/1.1\r\nHost:  h \r\nX-A: a \t b\r\nConnection: close\r\n\r\n\
    GET / HTTP/1.1\r\nHost: h\r\n\r\n";

// The first request as it goes out.
const FIRST: &[u8] = b"GET /ab HTTP/1.1\r\nhost: h\r\nx-a: a b\r\n\r\n";

// Two responses in one piece.
const TWO_SAID: &[u8] = b"HTTP/1.1 200 OK\r\nContent-Length: 2\r\n\r\nhiHTTP/1.1 204 \r\n\r\n";

// A request and its response, each in two pieces. The next request stays unread until the response has come, and goes out when all of the piece was heard.
#[test]
fn in_two_pieces(rt: HostRuntime) -> Result<(), Fail> {
    let mut gate = opened(&rt)?;
    comes(&mut gate, 3)?;
    in_vain(&rt, &mut gate, 3, b"GET /a%62 HT", 12)?;
    rests(&rt, &gate);
    comes(&mut gate, 3)?;
    goes_out(&rt, &mut gate, 3, REST, 52, FIRST)?;
    rests(&rt, &gate);
    let heard = says(&mut gate, b"HTTP/1.1 200 OK\r\nContent-Le")?;
    heard_out(&mut gate, heard)?;
    rests(&rt, &gate);
    comes(&mut gate, 3)?;
    in_vain(&rt, &mut gate, 3, ASKED, 0)?;
    let heard = says(&mut gate, b"ngth: 2\r\n\r\nhi")?;
    let heard = answers(&rt, &mut gate, heard, 3, 0, COPY)?;
    assert_eq!(rt; gate.proxy.first(), None);
    heard_out(&mut gate, heard)?;
    goes_out(&rt, &mut gate, 3, ASKED, 27, ASKS)?;
    rests(&rt, &gate);
    let heard = says(&mut gate, SAID)?;
    let heard = answers(&rt, &mut gate, heard, 3, 1, COPY)?;
    heard_out(&mut gate, heard)
}

// The second response comes before the client, whose next request is ready, has gone on: nobody waits for it.
#[test]
fn one_response_too_many(rt: HostRuntime) -> Result<(), Fail> {
    let mut gate = asked_by(&rt, &[3])?;
    comes(&mut gate, 3)?;
    in_vain(&rt, &mut gate, 3, ASKED, 0)?;
    let heard = says(&mut gate, TWO_SAID)?;
    let heard = answers(&rt, &mut gate, heard, 3, 0, COPY)?;
    let fallen = falls(&rt, &mut gate, heard, SERVER)?;
    all_told(&mut gate, fallen)?;
    refused(&rt, &mut gate, 3, ASKED, 27, Fault::Down)?;
    in_vain(&rt, &mut gate, 3, b"", 0)?;
    rests(&rt, &gate);
    Ok(())
}

// The clients who were freed go on in the order of their responses, each as far as it can.
#[test]
fn freed_in_order(rt: HostRuntime) -> Result<(), Fail> {
    let mut gate = asked_by(&rt, &[5, 2])?;
    let heard = says(&mut gate, TWO_SAID)?;
    let heard = answers(&rt, &mut gate, heard, 5, 0, COPY)?;
    let heard = answers(&rt, &mut gate, heard, 2, 1, b"HTTP/1.1 204 \r\n\r\n")?;
    heard_out(&mut gate, heard)?;
    let wrong_part = b"GET // HTTP/1.1\r\nHost: h\r\n\r\n";
    refused(&rt, &mut gate, 5, wrong_part, 28, Fault::PathPart)?;
    goes_out(&rt, &mut gate, 5, ASKED, 27, ASKS)?;
    goes_out(&rt, &mut gate, 2, ASKED, 27, ASKS)?;
    rests(&rt, &gate);
    Ok(())
}

// A response that has no room is not written, and can be written again: it lies in the memory until the next call.
#[test]
fn short_output(rt: HostRuntime) -> Result<(), Fail> {
    let mut gate = asked_by(&rt, &[3])?;
    let mut short = [b'.'; 39];
    let mut large = [b'.'; 40];
    let heard = says(&mut gate, SAID)?;
    let Next::Answer(heard, answer) = next(&mut gate, heard)? else {
        return Err(Fail::new("no response"));
    };
    let Err(full) = answer.write(&gate.memory, &mut short) else {
        return Err(Fail::new("room was found"));
    };
    assert_eq!(rt; full.wanted, 40);
    assert!(rt; short.iter().all(|byte| *byte == b'.'));
    assert!(rt; matches!(answer.write(b"", &mut large), Ok(0)));
    assert!(rt; large.iter().all(|byte| *byte == b'.'));
    assert!(rt; matches!(answer.write(&gate.memory, &mut large), Ok(40)));
    assert!(rt; large.as_slice() == COPY);
    heard_out(&mut gate, heard)
}
