// What is told of a request and of what was found, worked out by hand.
use crate::{Told, tell};
use message::fault::Fault;
use message::sent_field::SentField;
use request::canonical::Request;
use request::found::Found;
use std::alloc::AllocError;

#[test]
fn requests_are_told(rt: HostRuntime) -> Result<(), AllocError> {
    let fields = [SentField {
        name: b"Host",
        value: b"h",
    }];
    let request = Request {
        method: b"POST",
        target: b"/b",
        fields: &fields,
        body: b"x=1",
    };
    let mut text = Vec::from_slice(rt.alloc(), b"before\n")?;
    tell(&request, &mut text)?;
    assert!(rt;
        text.as_slice()
            == b"before\n  POST /b HTTP/1.1\n  host: h\n  content-length: 3\n  body 3 783d31\n".as_slice()
    );
    Ok(())
}

#[test]
fn findings_are_told(rt: HostRuntime) -> Result<(), AllocError> {
    let request = Request {
        method: b"GET",
        target: b"/",
        fields: &[],
        body: b"",
    };
    let mut text = Vec::new(rt.alloc());
    tell(&Found::Request(1, request), &mut text)?;
    tell(&Found::Fault(Fault::Host.at(7)), &mut text)?;
    Found::More.add_to(&mut text)?;
    assert!(rt; text.as_slice() == b"pass 2\n  GET / HTTP/1.1\nfault 4 at 7\nmore\n".as_slice());
    Ok(())
}
