// Requests that are refused: nothing is written, and the client goes on behind its request or is ended.
use super::play::{ASKED, ASKS, comes, goes_out, in_vain, opened, refused, rests};
use message::fault::Fault;
use std::test::Fail;

// With 9 and 12 the request is taken, of 32 and 27 bytes, and what stands behind it is the next one.
#[test]
fn client_goes_on(rt: HostRuntime) -> Result<(), Fail> {
    let unread = b"GET /a%2fb HTTP/1.1\r\nHost: h\r\n\r\n\
        GET / HTTP/1.1\r\nHost: g\r\n\r\n\
        GET / HTTP/1.1\r\nHost: h\r\n\r\n";
    let mut gate = opened(&rt)?;
    comes(&mut gate, 3)?;
    refused(&rt, &mut gate, 3, unread, 32, Fault::PathByte)?;
    assert!(rt; !gate.proxy.rests());
    refused(&rt, &mut gate, 3, &unread[32..], 27, Fault::Denied)?;
    goes_out(&rt, &mut gate, 3, &unread[59..], 27, ASKS)?;
    rests(&rt, &gate);
    Ok(())
}

// With 5 all is taken, of the request, which has 76 bytes, and behind it. Nothing is read from this client any more; others go on.
#[test]
fn client_is_ended(rt: HostRuntime) -> Result<(), Fail> {
    let unread =
        b"POST /b HTTP/1.1\r\nHost: h\r\nContent-Length: 3\r\nTransfer-Encoding: chunked\r\n\r\n\
        GET / HTTP/1.1\r\nHost: h\r\n\r\n";
    let mut gate = opened(&rt)?;
    comes(&mut gate, 3)?;
    refused(&rt, &mut gate, 3, unread, 103, Fault::Framing)?;
    rests(&rt, &gate);
    comes(&mut gate, 3)?;
    in_vain(&rt, &mut gate, 3, ASKED, 0)?;
    rests(&rt, &gate);
    comes(&mut gate, 4)?;
    goes_out(&rt, &mut gate, 4, ASKED, 27, ASKS)
}
