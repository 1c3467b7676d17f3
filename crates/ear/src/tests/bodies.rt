// What follows a head: a body by a length or in chunks, none, or what makes the response unreadable.
use super::play::{breaks_each, gives};
use std::test::Fail;

#[test]
fn by_length(rt: HostRuntime) -> Result<(), Fail> {
    let said = b"HTTP/1.1 404 No\r\nCONTENT-LENGTH:\t000005 \r\nX: y\r\n\r\n\r\n\r\n.";
    let copy = b"HTTP/1.1 404 No\r\nx: y\r\ncontent-length: 5\r\n\r\n\r\n\r\n.";
    gives(&rt, b"GET", said, copy)?;
    let said = b"HTTP/1.1 200 OK\r\nContent-Length: 000000\r\n\r\n";
    let copy = b"HTTP/1.1 200 OK\r\ncontent-length: 0\r\n\r\n";
    gives(&rt, b"DELETE", said, copy)
}

// The sizes are 2, 10 and 11; the third chunk looks like the end of a body.
#[test]
fn chunks_to_length(rt: HostRuntime) -> Result<(), Fail> {
    let said = b"HTTP/1.1 200 OK\r\n\
        Transfer-Encoding: Chunked\r\n\
        X: y\r\n\r\n\
        2\r\nab\r\n\
        0000A\r\n0123456789\r\n\
        00b\r\n\r\n2\r\n0\r\n\r\nx\r\n\
        0\r\n\r\n";
    let copy =
        b"HTTP/1.1 200 OK\r\nx: y\r\ncontent-length: 23\r\n\r\nab0123456789\r\n2\r\n0\r\n\r\nx";
    gives(&rt, b"GET", said, copy)?;
    let said = b"HTTP/1.1 200 OK\r\nTransfer-Encoding: chunked\r\n\r\n00000\r\n\r\n";
    let copy = b"HTTP/1.1 200 OK\r\ncontent-length: 0\r\n\r\n";
    gives(&rt, b"GET", said, copy)
}

// Lengths and encodings are not looked at, whatever their number and values, and the copy has none.
#[test]
fn none_by_status(rt: HostRuntime) -> Result<(), Fail> {
    let said = b"HTTP/1.1 304 Not Modified\r\nContent-Length: 5\r\nETag: \"a\"\r\n\r\n";
    let copy = b"HTTP/1.1 304 Not Modified\r\netag: \"a\"\r\n\r\n";
    gives(&rt, b"GET", said, copy)?;
    let said = b"HTTP/1.1 204 \r\nTransfer-Encoding: chunked\r\nContent-Length: 5\r\nX: y\r\n\r\n";
    gives(&rt, b"OPTIONS", said, b"HTTP/1.1 204 \r\nx: y\r\n\r\n")?;
    let said = b"HTTP/1.1 101 X\r\nContent-Length: x\r\nContent-Length: 9999999\r\n\r\n";
    gives(&rt, b"GET", said, b"HTTP/1.1 101 X\r\n\r\n")?;
    let said = b"HTTP/1.1 304 \r\nTransfer-Encoding: gzip\r\nTransfer-Encoding: chunked\r\n\r\n";
    gives(&rt, b"GET", said, b"HTTP/1.1 304 \r\n\r\n")
}

#[test]
fn none_after_head(rt: HostRuntime) -> Result<(), Fail> {
    for said in [
        b"HTTP/1.1 200 OK\r\n\r\n".as_slice(),
        b"HTTP/1.1 200 OK\r\nContent-Length: 5\r\n\r\n",
        b"HTTP/1.1 200 OK\r\nContent-Length: 5\r\nContent-Length: 6\r\n\r\n",
        b"HTTP/1.1 200 OK\r\nContent-Length: 999999\r\n\r\n",
        b"HTTP/1.1 200 OK\r\nContent-Length: -\r\n\r\n",
        b"HTTP/1.1 200 OK\r\nTransfer-Encoding: chunked\r\n\r\n",
        b"HTTP/1.1 200 OK\r\nTransfer-Encoding: gzip\r\nContent-Length: 5\r\n\r\n",
    ] {
        gives(&rt, b"HEAD", said, b"HTTP/1.1 200 OK\r\n\r\n")?;
    }
    Ok(())
}

// Heads that say both, neither, or one twice.
#[test]
fn not_said_once(rt: HostRuntime) -> Result<(), Fail> {
    breaks_each(
        &rt,
        b"HTTP/1.1 200 OK\r\n",
        &[
            b"Content-Length: 5\r\nTransfer-Encoding: chunked\r\n\r\n",
            b"Transfer-Encoding: chunked\r\nX: y\r\nContent-Length: 0\r\n\r\n",
            b"\r\n",
            b"Connection: close\r\nContent-Type: text/html\r\n\r\n",
            b"Content-Length: 5\r\nContent-Length: 5\r\n\r\n",
            b"Content-Length: 5\r\ncontent-length: 6\r\n\r\n",
            b"Transfer-Encoding: chunked\r\nTransfer-Encoding: chunked\r\n\r\n",
            b"Transfer-Encoding: gzip\r\nTransfer-Encoding: chunked\r\n\r\n",
        ],
    )
}

#[test]
fn bad_lengths(rt: HostRuntime) -> Result<(), Fail> {
    breaks_each(
        &rt,
        b"HTTP/1.1 200 OK\r\nContent-Length: ",
        &[
            b"\r\n\r\n",
            b"x\r\n\r\n",
            b"+5\r\n\r\n",
            b"-0\r\n\r\n",
            b"5, 5\r\n\r\n",
            b"1 2\r\n\r\n",
            b"0x5\r\n\r\n",
            b"0000005\r\n\r\n",
        ],
    )
}

#[test]
fn bad_encodings(rt: HostRuntime) -> Result<(), Fail> {
    breaks_each(
        &rt,
        b"HTTP/1.1 200 OK\r\nTransfer-Encoding: ",
        &[
            b"\r\n\r\n",
            b"gzip\r\n\r\n",
            b"identity\r\n\r\n",
            b"gzip, chunked\r\n\r\n",
            b"chunked;x=y\r\n\r\n",
        ],
    )
}

// In each the last byte is the first that may not stand there.
#[test]
fn bad_chunks(rt: HostRuntime) -> Result<(), Fail> {
    breaks_each(
        &rt,
        b"HTTP/1.1 200 OK\r\nTransfer-Encoding: chunked\r\n\r\n",
        &[
            b"x",
            b"\r",
            b"\n",
            b" ",
            b"000000",
            b"1;",
            b"1 ",
            b"1\n",
            b"1\rx",
            b"1\r\r",
            b"1\r\nab",
            b"1\r\na\n",
            b"1\r\na\rx",
            b"1\r\na\r\n\r",
            b"2\r\nab\r\n0\r\nx",
            b"0\r\n\rx",
        ],
    )
}
