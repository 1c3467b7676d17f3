// What the plays are made of: the gate with what is lent to it, what comes, and what that leads to. Clients and servers are counted from 0.
use connection::owners::Owner;
use message::fault::Fault;
use proxy::client::Did;
use proxy::server::{Answer, Fallen, Heard, Next, Telling};
use proxy::state::{Misuse, Proxy, SLAB};
use proxy_laws::calls;
use request::reading::MEMORY;
use rules::{Rule, Verdict};
use std::process::Abort;
use std::test::Fail;

// A request for / of the server `h`, with 27 bytes.
pub const ASKED: &[u8] = b"GET / HTTP/1.1\r\nHost: h\r\n\r\n";

// Its canonical form, with as many.
pub const ASKS: &[u8] = b"GET / HTTP/1.1\r\nhost: h\r\n\r\n";

// A response to it, and the copy of that for its client, with 40 bytes.
pub const SAID: &[u8] = b"HTTP/1.1 200 OK\r\nContent-Length: 2\r\n\r\nhi";

pub const COPY: &[u8] = b"HTTP/1.1 200 OK\r\ncontent-length: 2\r\n\r\nhi";

// The servers: nothing is let pass to the first, GET and POST to the second.
const NAMES: &[&[u8]] = &[b"g", b"h"];

const RULES: &[&[Rule<'static>]] = &[
    &[],
    &[Rule {
        verdict: Verdict::Allow,
        methods: b"GET,POST",
        path: b"/",
    }],
];

// The number of the server `h`.
pub const SERVER: usize = 1;

// The gate, and the memory and the output that are lent to it.
#[derive(Drop)]
pub struct Gate {
    pub proxy: Proxy<'static>,
    pub memory: Vec<u8>,
    pub out: Vec<u8>,
}

// Before the first event.
pub fn opened(rt: &impl AllocGlobal) -> Result<Gate, Fail> {
    Ok(Gate {
        proxy: calls::open(NAMES, RULES)?,
        memory: vec![in rt.alloc(); 0; SLAB]?,
        out: vec![in rt.alloc(); b'.'; MEMORY]?,
    })
}

// A request for / of each of these clients, in this order, has gone out.
pub fn asked_by(rt: &(impl Abort + AllocGlobal), clients: &[usize]) -> Result<Gate, Fail> {
    let mut gate = opened(rt)?;
    for client in clients {
        comes(&mut gate, *client)?;
        goes_out(rt, &mut gate, *client, ASKED, 27, ASKS)?;
    }
    Ok(gate)
}

// Nothing was written to the output.
pub fn unwritten(rt: &impl Abort, gate: &Gate) {
    assert!(rt; gate.out.iter().all(|byte| *byte == b'.'));
}

// Nothing is to be done.
pub fn rests(rt: &impl Abort, gate: &Gate) {
    assert!(rt; gate.proxy.rests());
    assert_eq!(rt; gate.proxy.first(), None);
}

// A client sends something.
pub fn comes(gate: &mut Gate, client: usize) -> Result<(), Fail> {
    Ok(calls::client_sent(&mut gate.proxy, client)?)
}

// A client may send nothing, for this reason.
pub fn no_client(rt: &impl Abort, gate: &mut Gate, client: usize, misuse: Misuse) {
    assert_eq!(rt; calls::client_sent(&mut gate.proxy, client), Err(misuse));
}

// A server may say nothing, for this reason.
pub fn no_server(
    rt: &impl Abort,
    gate: &mut Gate,
    server: usize,
    misuse: Misuse,
) -> Result<(), Fail> {
    let Err(found) = calls::server_said(&mut gate.proxy, server, SAID) else {
        return Err(Fail::new("a piece is heard"));
    };
    assert_eq!(rt; found, misuse);
    Ok(())
}

// Nobody goes on, for this reason, and nothing is written.
pub fn no_turn(rt: &impl Abort, gate: &mut Gate, misuse: Misuse) -> Result<(), Fail> {
    let Err(found) = calls::go_on(&mut gate.proxy, &mut gate.memory, ASKED, &mut gate.out) else {
        return Err(Fail::new("somebody went on"));
    };
    assert_eq!(rt; found, misuse);
    unwritten(rt, gate);
    Ok(())
}

// This client, the first in the line, goes on, and so many of its unread bytes are taken.
fn turn(
    rt: &impl Abort,
    gate: &mut Gate,
    client: usize,
    unread: &[u8],
    taken: usize,
) -> Result<Did, Fail> {
    assert_eq!(rt; gate.proxy.first(), Some(client));
    let turn = calls::go_on(&mut gate.proxy, &mut gate.memory, unread, &mut gate.out)?;
    assert_eq!(rt; turn.client, client);
    assert_eq!(rt; turn.taken, taken);
    Ok(turn.did)
}

// It goes on, and its request goes out to the server as these bytes; then the output is cleared.
pub fn goes_out(
    rt: &impl Abort,
    gate: &mut Gate,
    client: usize,
    unread: &[u8],
    taken: usize,
    request: &[u8],
) -> Result<(), Fail> {
    let Did::Sent { server, len } = turn(rt, gate, client, unread, taken)? else {
        return Err(Fail::new("nothing went out"));
    };
    assert_eq!(rt; server, SERVER);
    assert_eq!(rt; len, request.len());
    clear(rt, gate, request)
}

// These bytes stand at the front of the output, and nothing was written behind them. Then the output is cleared.
fn clear(rt: &impl Abort, gate: &mut Gate, written: &[u8]) -> Result<(), Fail> {
    let Some(rest) = gate.out.strip_prefix(written) else {
        return Err(Fail::new("other bytes"));
    };
    assert!(rt; rest.iter().all(|byte| *byte == b'.'));
    gate.out.fill(b'.');
    Ok(())
}

// It goes on, and nothing comes of it.
pub fn in_vain(
    rt: &impl Abort,
    gate: &mut Gate,
    client: usize,
    unread: &[u8],
    taken: usize,
) -> Result<(), Fail> {
    let Did::Nothing = turn(rt, gate, client, unread, taken)? else {
        return Err(Fail::new("something came of it"));
    };
    unwritten(rt, gate);
    Ok(())
}

// It goes on, and is refused with a fault: nothing is written.
pub fn refused(
    rt: &impl Abort,
    gate: &mut Gate,
    client: usize,
    unread: &[u8],
    taken: usize,
    fault: Fault,
) -> Result<(), Fail> {
    let Did::Refused(found) = turn(rt, gate, client, unread, taken)? else {
        return Err(Fail::new("not refused"));
    };
    assert_eq!(rt; found.number(), fault.number());
    unwritten(rt, gate);
    Ok(())
}

// The server `h` says something.
pub fn says<'p>(gate: &mut Gate, piece: &'p [u8]) -> Result<Heard<'p>, Fail> {
    Ok(calls::server_said(&mut gate.proxy, SERVER, piece)?)
}

// A piece is being heard: nothing may come, and nobody goes on.
pub fn hears(rt: &impl Abort, gate: &mut Gate) -> Result<(), Fail> {
    assert!(rt; !gate.proxy.rests());
    assert_eq!(rt; gate.proxy.first(), None);
    no_client(rt, gate, 4, Misuse::Early);
    no_server(rt, gate, 0, Misuse::Early)?;
    no_server(rt, gate, SERVER, Misuse::Early)?;
    no_turn(rt, gate, Misuse::Early)
}

// Whose request is meant, which was a GET.
fn is_owner(rt: &impl Abort, owner: &Owner, client: usize, number: u64) {
    assert_eq!(rt; owner.client, client);
    assert_eq!(rt; owner.number, number);
    assert!(rt; owner.method() == b"GET".as_slice());
}

// What comes next of a piece.
pub fn next<'p>(gate: &mut Gate, heard: Heard<'p>) -> Result<Next<'p>, Fail> {
    let Ok(next) = calls::next(&mut gate.proxy, heard, &mut gate.memory) else {
        return Err(Fail::new("the piece was given back"));
    };
    Ok(next)
}

// The copy of a response has these bytes.
fn is_written(rt: &impl Abort, gate: &mut Gate, answer: &Answer, copy: &[u8]) -> Result<(), Fail> {
    let Ok(len) = answer.write(&gate.memory, &mut gate.out) else {
        return Err(Fail::new("no room"));
    };
    assert_eq!(rt; len, copy.len());
    clear(rt, gate, copy)
}

// The last response to the request of a client, which has this number, comes next of a piece, and is given as this copy.
pub fn answers<'p>(
    rt: &impl Abort,
    gate: &mut Gate,
    heard: Heard<'p>,
    client: usize,
    number: u64,
    copy: &[u8],
) -> Result<Heard<'p>, Fail> {
    let Next::Answer(heard, answer) = next(gate, heard)? else {
        return Err(Fail::new("no response"));
    };
    assert_eq!(rt; answer.server, SERVER);
    is_owner(rt, &answer.handed.owner, client, number);
    assert!(rt; answer.handed.last);
    is_written(rt, gate, &answer, copy)?;
    Ok(heard)
}

// Nothing more comes of a piece.
pub fn heard_out(gate: &mut Gate, heard: Heard<'_>) -> Result<(), Fail> {
    let Next::Rest = next(gate, heard)? else {
        return Err(Fail::new("more comes of it"));
    };
    Ok(())
}

// The connection to a server goes down with a piece.
pub fn falls(
    rt: &impl Abort,
    gate: &mut Gate,
    heard: Heard<'_>,
    server: usize,
) -> Result<Fallen, Fail> {
    let Next::Down(fallen) = next(gate, heard)? else {
        return Err(Fail::new("it stays up"));
    };
    assert_eq!(rt; fallen.server, server);
    Ok(fallen)
}

// A client is told of it, whose request has this number.
pub fn told(
    rt: &impl Abort,
    gate: &mut Gate,
    fallen: Fallen,
    client: usize,
    number: u64,
) -> Result<Fallen, Fail> {
    let Telling::Tell(fallen, owner) = calls::tell(&mut gate.proxy, fallen) else {
        return Err(Fail::new("nobody is told"));
    };
    is_owner(rt, &owner, client, number);
    Ok(fallen)
}

// Nobody else is told of it.
pub fn all_told(gate: &mut Gate, fallen: Fallen) -> Result<(), Fail> {
    let Telling::Rest = calls::tell(&mut gate.proxy, fallen) else {
        return Err(Fail::new("one more is told"));
    };
    Ok(())
}
