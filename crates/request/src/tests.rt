// The worked examples: what stands on the wire, byte for byte, and targets as they are judged and undone.
use crate::canonical::Request;
use crate::target::{check_target, undo};
use message::field::Field;
use std::test::Fail;

#[test]
fn get_is_29_bytes(rt: HostRuntime) -> Result<(), Fail> {
    let fields = [Field {
        name: b"host",
        value: b"h",
    }];
    let request = Request {
        method: b"GET",
        target: b"/ab",
        fields: &fields,
        body: b"",
    };
    let mut out = [b'.'; 31];
    let Ok(n) = request.write(&mut out) else {
        return Err(Fail::new("refused"));
    };
    assert_eq!(rt; n, 29);
    assert!(rt; &out == b"GET /ab HTTP/1.1\r\nhost: h\r\n\r\n..");
    Ok(())
}

#[test]
fn post_is_51_bytes(rt: HostRuntime) -> Result<(), Fail> {
    let fields = [Field {
        name: b"host",
        value: b"h",
    }];
    let request = Request {
        method: b"POST",
        target: b"/b",
        fields: &fields,
        body: b"x=1",
    };
    let mut out = [b'.'; 51];
    let Ok(n) = request.write(&mut out) else {
        return Err(Fail::new("refused"));
    };
    assert_eq!(rt; n, 51);
    assert!(rt; &out == b"POST /b HTTP/1.1\r\nhost: h\r\ncontent-length: 3\r\n\r\nx=1");
    Ok(())
}

#[test]
fn empty_value_and_body(rt: HostRuntime) -> Result<(), Fail> {
    let fields = [
        Field {
            name: b"host",
            value: b"h",
        },
        Field {
            name: b"x",
            value: b"",
        },
    ];
    let request = Request {
        method: b"PUT",
        target: b"/",
        fields: &fields,
        body: b"",
    };
    let mut out = [b'.'; 51];
    let Ok(n) = request.write(&mut out) else {
        return Err(Fail::new("refused"));
    };
    assert_eq!(rt; n, 51);
    assert!(rt; &out == b"PUT / HTTP/1.1\r\nhost: h\r\nx: \r\ncontent-length: 0\r\n\r\n");
    Ok(())
}

#[test]
fn no_room_says_how_much(rt: HostRuntime) -> Result<(), Fail> {
    let request: Request<'_, '_, Field> = Request {
        method: b"GET",
        target: b"/ab",
        fields: &[],
        body: b"",
    };
    let mut out = [b'.'; 19];
    let Err(full) = request.write(&mut out) else {
        return Err(Fail::new("written"));
    };
    assert_eq!(rt; full.wanted, 20);
    assert!(rt; &out == b"...................");
    Ok(())
}

// The number of what is wrong with a target and its place; 0 where nothing is.
fn wrong(target: &[u8]) -> (u8, usize) {
    match check_target(target) {
        Ok(()) => (0, 0),
        Err(flaw) => (flaw.fault.number(), flaw.place),
    }
}

#[test]
fn targets_judged(rt: HostRuntime) {
    assert_eq!(rt; wrong(b"/"), (0, 0));
    assert_eq!(rt; wrong(b"/a%62/%e9?/x?%zz"), (0, 0));
    assert_eq!(rt; wrong(b"/a%2fb"), (9, 2));
    assert_eq!(rt; wrong(b"/a%2"), (9, 2));
    assert_eq!(rt; wrong(b"/a//b"), (10, 3));
    assert_eq!(rt; wrong(b"/a/"), (10, 3));
    assert_eq!(rt; wrong(b"/a/%2e%2e/b"), (10, 9));
    assert_eq!(rt; wrong(b"/a?#"), (11, 3));
}

#[test]
fn targets_undone(rt: HostRuntime) {
    let mut plain = *b"/a%62";
    assert_eq!(rt; undo(&mut plain), 3);
    assert!(rt; &plain == b"/ab62");
    let mut high = *b"/%e9";
    assert_eq!(rt; undo(&mut high), 4);
    assert!(rt; &high == b"/%E9");
    let mut empty = *b"/a?";
    assert_eq!(rt; undo(&mut empty), 2);
    assert!(rt; &empty == b"/a?");
    let mut query = *b"/a%62?x%62";
    assert_eq!(rt; undo(&mut query), 8);
    assert!(rt; &query == b"/ab?x%6262");
}
