// First lines at the edges of their form, what a status says of what follows, and refusals byte for byte.
use crate::copy::Response;
use crate::refusal::write_refusal;
use crate::status::{Status, read_status};
use message::fault::Fault;
use message::sent_field::SentField;
use std::process::Abort;
use std::test::Fail;

// The code that a line says; 0 where it is no first line.
fn code(line: &[u8]) -> usize {
    match read_status(line) {
        Some(status) => status.code,
        None => 0,
    }
}

#[test]
fn first_lines(rt: HostRuntime) {
    assert_eq!(rt; code(b"HTTP/1.1 200 OK"), 200);
    assert_eq!(rt; code(b"HTTP/1.1 100 Continue"), 100);
    assert_eq!(rt; code(b"HTTP/1.1 599 x"), 599);
    assert_eq!(rt; code(b"HTTP/1.1 204 "), 204);
    assert_eq!(rt; code(b"HTTP/1.1 404  Not  here ~"), 404);
}

#[test]
fn wrong_codes(rt: HostRuntime) {
    assert_eq!(rt; code(b"HTTP/1.1 099 x"), 0);
    assert_eq!(rt; code(b"HTTP/1.1 600 x"), 0);
    assert_eq!(rt; code(b"HTTP/1.1 99 x"), 0);
    assert_eq!(rt; code(b"HTTP/1.1 2000 x"), 0);
    assert_eq!(rt; code(b"HTTP/1.1 0200 x"), 0);
    assert_eq!(rt; code(b"HTTP/1.1 2x0 x"), 0);
    assert_eq!(rt; code(b"HTTP/1.1 +20 x"), 0);
    assert_eq!(rt; code(b"HTTP/1.1  200 x"), 0);
}

#[test]
fn wrong_phrases(rt: HostRuntime) {
    assert_eq!(rt; code(b"HTTP/1.1 200"), 0);
    assert_eq!(rt; code(b"HTTP/1.1 200\tOK"), 0);
    assert_eq!(rt; code(b"HTTP/1.1 200 O\x1fK"), 0);
    assert_eq!(rt; code(b"HTTP/1.1 200 OK\x7f"), 0);
    assert_eq!(rt; code(b"HTTP/1.1 200 \xe9"), 0);
}

#[test]
fn wrong_versions(rt: HostRuntime) {
    assert_eq!(rt; code(b"HTTP/1.0 200 OK"), 0);
    assert_eq!(rt; code(b"HTTP/2 200 OK"), 0);
    assert_eq!(rt; code(b"http/1.1 200 OK"), 0);
    assert_eq!(rt; code(b" HTTP/1.1 200 OK"), 0);
    assert_eq!(rt; code(b"HTTP/1.1200 OK"), 0);
    assert_eq!(rt; code(b"HTTP/1.1 "), 0);
    assert_eq!(rt; code(b""), 0);
}

// Whether the last response to a request has this code, and whether a body follows its head after GET and after HEAD.
fn says(code: usize) -> (bool, bool, bool) {
    let status = Status { code };
    (
        status.is_last(),
        status.has_body(b"GET"),
        status.has_body(b"HEAD"),
    )
}

#[test]
fn what_statuses_say(rt: HostRuntime) {
    assert_eq!(rt; says(100), (false, false, false));
    assert_eq!(rt; says(101), (true, false, false));
    assert_eq!(rt; says(102), (false, false, false));
    assert_eq!(rt; says(103), (false, false, false));
    assert_eq!(rt; says(199), (false, false, false));
    assert_eq!(rt; says(200), (true, true, false));
    assert_eq!(rt; says(203), (true, true, false));
    assert_eq!(rt; says(204), (true, false, false));
    assert_eq!(rt; says(205), (true, true, false));
    assert_eq!(rt; says(304), (true, false, false));
    assert_eq!(rt; says(599), (true, true, false));
}

// Only HEAD in capitals is HEAD.
#[test]
fn what_methods_say(rt: HostRuntime) {
    let ok = Status { code: 200 };
    assert!(rt; ok.has_body(b"POST"));
    assert!(rt; ok.has_body(b"HEADS"));
    assert!(rt; ok.has_body(b"HEA"));
    assert!(rt; ok.has_body(b"head"));
    assert!(rt; !ok.has_body(b"HEAD"));
}

// A fault's refusal is this text; an output one byte too short is refused with the length of the text, and stays as it was.
fn refused(rt: &impl Abort, fault: Fault, text: &[u8]) -> Result<(), Fail> {
    let mut out = [b'.'; 40];
    let Ok(n) = write_refusal(fault, &mut out) else {
        return Err(Fail::new("no room"));
    };
    assert_eq!(rt; n, text.len());
    assert!(rt; out.starts_with(text));
    assert!(rt; out.ends_with(b".."));
    let mut out = [b'.'; 40];
    let short = text.len().saturating_sub(1).min(40);
    let Err(full) = write_refusal(fault, &mut out[..short]) else {
        return Err(Fail::new("written without room"));
    };
    assert_eq!(rt; full.wanted, text.len());
    assert!(rt; &out == b"........................................");
    Ok(())
}

#[test]
fn refusals_of_what_is_read(rt: HostRuntime) -> Result<(), Fail> {
    refused(
        &rt,
        Fault::FirstLine,
        b"HTTP/1.1 400 1\r\ncontent-length: 0\r\n\r\n",
    )?;
    refused(
        &rt,
        Fault::TooLong,
        b"HTTP/1.1 431 2\r\ncontent-length: 0\r\n\r\n",
    )?;
    refused(
        &rt,
        Fault::FieldLine,
        b"HTTP/1.1 400 3\r\ncontent-length: 0\r\n\r\n",
    )?;
    refused(
        &rt,
        Fault::Host,
        b"HTTP/1.1 421 4\r\ncontent-length: 0\r\n\r\n",
    )?;
    refused(
        &rt,
        Fault::Framing,
        b"HTTP/1.1 400 5\r\ncontent-length: 0\r\n\r\n",
    )?;
    refused(
        &rt,
        Fault::BodyUnfit,
        b"HTTP/1.1 411 6\r\ncontent-length: 0\r\n\r\n",
    )?;
    refused(
        &rt,
        Fault::BodyTooLong,
        b"HTTP/1.1 413 7\r\ncontent-length: 0\r\n\r\n",
    )?;
    refused(
        &rt,
        Fault::Chunk,
        b"HTTP/1.1 400 8\r\ncontent-length: 0\r\n\r\n",
    )
}

#[test]
fn refusals_of_what_is_asked(rt: HostRuntime) -> Result<(), Fail> {
    refused(
        &rt,
        Fault::PathByte,
        b"HTTP/1.1 400 9\r\ncontent-length: 0\r\n\r\n",
    )?;
    refused(
        &rt,
        Fault::PathPart,
        b"HTTP/1.1 400 10\r\ncontent-length: 0\r\n\r\n",
    )?;
    refused(
        &rt,
        Fault::QueryByte,
        b"HTTP/1.1 400 11\r\ncontent-length: 0\r\n\r\n",
    )?;
    refused(
        &rt,
        Fault::Denied,
        b"HTTP/1.1 403 12\r\ncontent-length: 0\r\n\r\n",
    )?;
    refused(
        &rt,
        Fault::Busy,
        b"HTTP/1.1 503 13\r\ncontent-length: 0\r\n\r\n",
    )?;
    refused(
        &rt,
        Fault::Down,
        b"HTTP/1.1 502 14\r\ncontent-length: 0\r\n\r\n",
    )
}

// A copy is written as a whole or not at all: with no body that may follow it has no length.
#[test]
fn copies_and_room(rt: HostRuntime) -> Result<(), Fail> {
    let fields = [SentField {
        name: b"X-A",
        value: b"b \t c",
    }];
    let copy = Response {
        line: b"HTTP/1.1 304 ",
        fields: &fields,
        body: None,
    };
    assert_eq!(rt; copy.wire_len(), 27);
    let mut out = [b'.'; 29];
    let Ok(n) = copy.write(&mut out) else {
        return Err(Fail::new("no room"));
    };
    assert_eq!(rt; n, 27);
    assert!(rt; &out == b"HTTP/1.1 304 \r\nx-a: b c\r\n\r\n..");
    let mut short = [b'.'; 26];
    let Err(full) = copy.write(&mut short) else {
        return Err(Fail::new("written without room"));
    };
    assert_eq!(rt; full.wanted, 27);
    assert!(rt; &short == b"..........................");
    Ok(())
}
