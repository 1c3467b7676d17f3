// The lines of a head: what the copy keeps of them, and which of them make the response unreadable.
use super::play::{breaks_each, gives};
use std::test::Fail;

// The nine by their names, and what the `connection` fields name, for fields before and after them; `host` is kept.
#[test]
fn dropped(rt: HostRuntime) -> Result<(), Fail> {
    let said = b"HTTP/1.1 200 OK\r\n\
        Connection: X-A , close\r\n\
        Keep-Alive: 1\r\n\
        TE: x\r\n\
        Trailer: x\r\n\
        Upgrade: x\r\n\
        Expect: x\r\n\
        Proxy-Connection: x\r\n\
        X-A: 1\r\n\
        x-b: 2\r\n\
        X-AB: 3\r\n\
        Content-Length: 1\r\n\
        x-a: 4\r\n\r\n\
        z";
    let copy = b"HTTP/1.1 200 OK\r\nx-b: 2\r\nx-ab: 3\r\ncontent-length: 1\r\n\r\nz";
    gives(&rt, b"GET", said, copy)?;
    let said = b"HTTP/1.1 200 OK\r\n\
        A: 1\r\n\
        Host: h\r\n\
        Connection: host,, b\r\n\
        B: 2\r\n\
        Transfer-Encoding: chunked\r\n\
        connection:\t a\t,C\r\n\
        c: 3\r\n\
        D: 4\r\n\r\n\
        1\r\nz\r\n\
        0\r\n\r\n";
    let copy = b"HTTP/1.1 200 OK\r\nhost: h\r\nd: 4\r\ncontent-length: 1\r\n\r\nz";
    gives(&rt, b"GET", said, copy)?;
    let said = b"HTTP/1.1 304 X\r\nConnection: etag\r\nETag: x\r\nKeep-Alive: 5\r\nDate: y\r\n\r\n";
    gives(&rt, b"GET", said, b"HTTP/1.1 304 X\r\ndate: y\r\n\r\n")
}

// To name them changes nothing in how the body is read.
#[test]
fn named_framing(rt: HostRuntime) -> Result<(), Fail> {
    let said = b"HTTP/1.1 200 OK\r\nConnection: content-length\r\nContent-Length: 2\r\n\r\nab";
    let copy = b"HTTP/1.1 200 OK\r\ncontent-length: 2\r\n\r\nab";
    gives(&rt, b"GET", said, copy)?;
    let said =
        b"HTTP/1.1 200 OK\r\nConnection: transfer-encoding\r\nTransfer-Encoding: chunked\r\n\r\n2\r\nab\r\n0\r\n\r\n";
    gives(&rt, b"GET", said, copy)
}

// Names in lower case, runs of blanks one space, none at the ends; the order stays, and fields of one name stay apart. The first line is as it was sent.
#[test]
fn canonical(rt: HostRuntime) -> Result<(), Fail> {
    let said = b"HTTP/1.1 200  All  is~ \r\n\
        Set-Cookie:\t a=B \t c\t\t D \t\r\n\
        X-E:\r\n\
        X-F: \t \r\n\
        Content-Length:1\r\n\
        X:a:b\r\n\
        set-cookie: A=b\r\n\
        1-2: ~!\r\n\r\n\
        Z";
    let copy = b"HTTP/1.1 200  All  is~ \r\n\
        set-cookie: a=B c D\r\n\
        x-e: \r\n\
        x-f: \r\n\
        x: a:b\r\n\
        set-cookie: A=b\r\n\
        1-2: ~!\r\n\
        content-length: 1\r\n\r\n\
        Z";
    gives(&rt, b"GET", said, copy)
}

// In each the last byte ends a line that is not of its form, or shows what is stray.
#[test]
fn wrong_first_lines(rt: HostRuntime) -> Result<(), Fail> {
    breaks_each(
        &rt,
        b"",
        &[
            b"\n",
            b"\r\n",
            b"HTTP/1.1 200 OK\n",
            b"HTTP/1.1 200 OK\rX",
            b"HTTP/1.1 200 OK\r\r",
            b"HTTP/1.1 200\r\n",
            b"HTTP/1.1 099 X\r\n",
            b"HTTP/1.1 600 X\r\n",
            b"HTTP/1.1 200 \t\r\n",
            b"HTTP/1.0 200 OK\r\n",
            b" HTTP/1.1 200 OK\r\n",
            b"GET / HTTP/1.1\r\n",
        ],
    )
}

#[test]
fn wrong_fields(rt: HostRuntime) -> Result<(), Fail> {
    breaks_each(
        &rt,
        b"HTTP/1.1 204 X\r\n",
        &[
            b"\n",
            b"\rX",
            b"X: y\n",
            b"X: y\rz",
            b"X: y\r\n z\r\n",
            b"X: y\r\n\tz\r\n",
            b"X y\r\n",
            b": y\r\n",
            b"X : y\r\n",
            b"X_A: y\r\n",
            b"X: \x00\r\n",
            b"X: a\x7fb\r\n",
            b"X: \xe9\r\n",
        ],
    )
}
