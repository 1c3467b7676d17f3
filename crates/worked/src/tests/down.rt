// Connections that go down: who is told, and how the clients go on.
use super::play::{
    ASKED, COPY, Gate, SAID, SERVER, all_told, answers, asked_by, comes, falls, heard_out, hears,
    in_vain, refused, rests, says, told,
};
use message::fault::Fault;
use proxy_laws::calls;
use std::process::Abort;
use std::test::Fail;

// The clients 5 and 2 go on, in this order: what each has ready is refused.
fn both_refused(rt: &impl Abort, gate: &mut Gate) -> Result<(), Fail> {
    for client in [5, 2] {
        refused(rt, gate, client, ASKED, 27, Fault::Down)?;
        in_vain(rt, gate, client, b"", 0)?;
    }
    rests(rt, gate);
    Ok(())
}

// A lone LF is stray. Both who wait are told, and go on when all were; later pieces change nothing.
#[test]
fn unreadable_response(rt: HostRuntime) -> Result<(), Fail> {
    let mut gate = asked_by(&rt, &[5, 2])?;
    comes(&mut gate, 2)?;
    in_vain(&rt, &mut gate, 2, ASKED, 0)?;
    let heard = says(&mut gate, b"HTTP/1.1 200 OK\nContent-Length: 2\r\n\r\nhi")?;
    let fallen = falls(&rt, &mut gate, heard, SERVER)?;
    hears(&rt, &mut gate)?;
    let fallen = told(&rt, &mut gate, fallen, 5, 0)?;
    let fallen = told(&rt, &mut gate, fallen, 2, 1)?;
    hears(&rt, &mut gate)?;
    all_told(&mut gate, fallen)?;
    both_refused(&rt, &mut gate)?;
    let heard = says(&mut gate, SAID)?;
    heard_out(&mut gate, heard)?;
    rests(&rt, &gate);
    Ok(())
}

// The response that was whole is given; only then the other client is told.
#[test]
fn whole_then_unreadable(rt: HostRuntime) -> Result<(), Fail> {
    let said = b"HTTP/1.1 200 OK\r\nContent-Length: 2\r\n\r\nhi\r\n";
    let mut gate = asked_by(&rt, &[5, 2])?;
    let heard = says(&mut gate, said)?;
    let heard = answers(&rt, &mut gate, heard, 5, 0, COPY)?;
    let fallen = falls(&rt, &mut gate, heard, SERVER)?;
    let fallen = told(&rt, &mut gate, fallen, 2, 1)?;
    all_told(&mut gate, fallen)?;
    both_refused(&rt, &mut gate)
}

// A byte of a server that was asked nothing brings its own connection down, and no other.
#[test]
fn unasked_byte(rt: HostRuntime) -> Result<(), Fail> {
    let mut gate = asked_by(&rt, &[3])?;
    let heard = calls::server_said(&mut gate.proxy, 0, b"H")?;
    let fallen = falls(&rt, &mut gate, heard, 0)?;
    all_told(&mut gate, fallen)?;
    rests(&rt, &gate);
    let heard = says(&mut gate, SAID)?;
    let heard = answers(&rt, &mut gate, heard, 3, 0, COPY)?;
    heard_out(&mut gate, heard)?;
    in_vain(&rt, &mut gate, 3, b"", 0)?;
    rests(&rt, &gate);
    Ok(())
}
