// What the plays are made of: a client asks, the server says something, and a response is given, or a refusal is told.
use crate::Ear;
use connection::hearing::Hearing;
use connection::owners::Owner;
use connection::state::{Busy, Falling, Idle, Next, Telling, Unsent};
use message::fault::Fault;
use request::reading::MEMORY;
use request::sent::SentRequest;
use std::process::Abort;
use std::test::Fail;

// Whose request is meant: the client, its number on the connection, and its method.
#[derive(Clone, Copy)]
pub struct Who<'a> {
    pub client: usize,
    pub number: u64,
    pub method: &'a [u8],
}

// A client's GET of this number.
pub fn get(client: usize, number: u64) -> Who<'static> {
    Who {
        client,
        number,
        method: b"GET",
    }
}

// A request for / without fields.
pub fn request<'a>(method: &'a [u8]) -> SentRequest<'a, 'a> {
    SentRequest {
        method,
        target: b"/",
        fields: &[],
        body: b"",
    }
}

// A client asks with this method, and all of the request goes out.
pub fn ask_by(
    rt: &impl Abort,
    connection: &mut Idle<Ear>,
    client: usize,
    method: &[u8],
) -> Result<(), Fail> {
    let mut out = [b'.'; 40];
    let Ok(n) = connection.ask(client, &request(method), &mut out) else {
        return Err(Fail::new("nothing went out"));
    };
    assert_eq!(rt; n, method.len() + 15);
    let Some(rest) = out.as_slice().strip_prefix(method) else {
        return Err(Fail::new("another method"));
    };
    assert!(rt; rest.starts_with(b" / HTTP/1.1\r\n\r\n.."));
    Ok(())
}

// A client asks with GET.
pub fn ask(rt: &impl Abort, connection: &mut Idle<Ear>, client: usize) -> Result<(), Fail> {
    ask_by(rt, connection, client, b"GET")
}

// A client asks, and is refused with a fault: nothing goes out.
fn ask_refused(rt: &impl Abort, connection: &mut Idle<Ear>, fault: Fault) -> Result<(), Fail> {
    let mut out = [b'.'; 20];
    let Err(Unsent::Refused(found)) = connection.ask(9, &request(b"GET"), &mut out) else {
        return Err(Fail::new("not refused"));
    };
    assert_eq!(rt; found.number(), fault.number());
    assert!(rt; &out == b"....................");
    Ok(())
}

// The connection is down, and nothing goes out.
pub fn is_down(rt: &impl Abort, connection: &mut Idle<Ear>) -> Result<(), Fail> {
    assert!(rt; !connection.is_up());
    ask_refused(rt, connection, Fault::Down)
}

// Nothing goes out, since as many wait as may.
pub fn is_busy(rt: &impl Abort, connection: &mut Idle<Ear>) -> Result<(), Fail> {
    assert!(rt; connection.is_up());
    ask_refused(rt, connection, Fault::Busy)
}

fn is_owner(rt: &impl Abort, owner: Owner, who: Who<'_>) {
    assert_eq!(rt; owner.client, who.client);
    assert_eq!(rt; owner.number, who.number);
    assert!(rt; owner.method() == who.method);
}

// The response goes to its client as this copy, to the front of an output with room for it; one a byte too short stays as it was.
fn is_copy(
    rt: &(impl Abort + AllocGlobal),
    response: Ear,
    memory: &[u8],
    copy: &[u8],
) -> Result<(), Fail> {
    let mut out = vec![in rt.alloc(); b'.'; copy.len() + 2]?;
    let Ok(n) = response.write(memory, &mut out) else {
        return Err(Fail::new("no room"));
    };
    assert_eq!(rt; n, copy.len());
    assert!(rt; out.strip_prefix(copy) == Some(b"..".as_slice()));
    let mut short = vec![in rt.alloc(); b'.'; copy.len().saturating_sub(1)]?;
    let Err(full) = response.write(memory, &mut short) else {
        return Err(Fail::new("written without room"));
    };
    assert_eq!(rt; full.wanted, copy.len());
    assert!(rt; short.iter().all(|byte| *byte == b'.'));
    Ok(())
}

// A response is handed over: whose it is, its copy, and whether it is the last one to its request.
fn hand_over<'p>(
    rt: &(impl Abort + AllocGlobal),
    busy: Busy<'p, Ear>,
    memory: &mut [u8],
    who: Who<'_>,
    last: bool,
    copy: &[u8],
) -> Result<Busy<'p, Ear>, Fail> {
    let Ok(Next::Hand(busy, handed)) = busy.next(memory) else {
        return Err(Fail::new("no response"));
    };
    is_owner(rt, handed.owner, who);
    assert_eq!(rt; handed.last, last);
    is_copy(rt, handed.response, memory, copy)?;
    Ok(busy)
}

// The last response to a request.
pub fn hand<'p>(
    rt: &(impl Abort + AllocGlobal),
    busy: Busy<'p, Ear>,
    memory: &mut [u8],
    who: Who<'_>,
    copy: &[u8],
) -> Result<Busy<'p, Ear>, Fail> {
    hand_over(rt, busy, memory, who, true, copy)
}

// A response that another one to the same request follows.
pub fn hand_early<'p>(
    rt: &(impl Abort + AllocGlobal),
    busy: Busy<'p, Ear>,
    memory: &mut [u8],
    who: Who<'_>,
    copy: &[u8],
) -> Result<Busy<'p, Ear>, Fail> {
    hand_over(rt, busy, memory, who, false, copy)
}

pub fn rest(busy: Busy<'_, Ear>, memory: &mut [u8]) -> Result<Idle<Ear>, Fail> {
    let Ok(Next::Rest(connection)) = busy.next(memory) else {
        return Err(Fail::new("no rest"));
    };
    Ok(connection)
}

pub fn fall(busy: Busy<'_, Ear>, memory: &mut [u8]) -> Result<Falling<Ear>, Fail> {
    let Ok(Next::Fall(falling)) = busy.next(memory) else {
        return Err(Fail::new("no fall"));
    };
    Ok(falling)
}

pub fn tell(rt: &impl Abort, falling: Falling<Ear>, who: Who<'_>) -> Result<Falling<Ear>, Fail> {
    let Telling::Tell(falling, owner) = falling.tell() else {
        return Err(Fail::new("nobody is told"));
    };
    is_owner(rt, owner, who);
    Ok(falling)
}

// All were told, and the connection is down.
pub fn all_told(rt: &impl Abort, falling: Falling<Ear>) -> Result<Idle<Ear>, Fail> {
    let Telling::Rest(mut connection) = falling.tell() else {
        return Err(Fail::new("one more is told"));
    };
    is_down(rt, &mut connection)?;
    Ok(connection)
}

// Nobody waits: of one more byte nobody is told.
pub fn nobody_waits(rt: &impl Abort, busy: Busy<'_, Ear>, memory: &mut [u8]) -> Result<(), Fail> {
    let connection = rest(busy, memory)?;
    assert!(rt; connection.is_up());
    all_told(rt, fall(connection.hear(b"H"), memory)?)?;
    Ok(())
}

// Memory as it is lent for reading.
pub fn memory(rt: &impl AllocGlobal) -> Result<Vec<u8>, Fail> {
    Ok(vec![in rt.alloc(); 0; MEMORY]?)
}

// One request of this method waits. The server says a response, in one piece and byte by byte: its client gets this copy when the last byte is there, and
// then nobody waits.
pub fn gives(
    rt: &(impl Abort + AllocGlobal),
    method: &[u8],
    said: &[u8],
    copy: &[u8],
) -> Result<(), Fail> {
    let mut memory = memory(rt)?;
    let who = Who {
        client: 3,
        number: 0,
        method,
    };
    let connection = one_asks(rt, who)?;
    let busy = hand(rt, connection.hear(said), &mut memory, who, copy)?;
    nobody_waits(rt, busy, &mut memory)?;
    let (connection, last) = all_but_last(one_asks(rt, who)?, &mut memory, said)?;
    let piece = [last];
    let busy = hand(rt, connection.hear(&piece), &mut memory, who, copy)?;
    nobody_waits(rt, busy, &mut memory)
}

// Two requests of this method wait. The server says what is no response, which shows at its last byte, in one piece and byte by byte: both clients are told,
// and the connection stays down.
pub fn breaks(rt: &(impl Abort + AllocGlobal), method: &[u8], said: &[u8]) -> Result<(), Fail> {
    let mut memory = memory(rt)?;
    let connection = two_ask(rt, method)?;
    two_told(rt, fall(connection.hear(said), &mut memory)?, method)?;
    let (connection, last) = all_but_last(two_ask(rt, method)?, &mut memory, said)?;
    two_told(rt, fall(connection.hear(&[last]), &mut memory)?, method)
}

// The same of each of these, said behind a front, to GET.
pub fn breaks_each(
    rt: &(impl Abort + AllocGlobal),
    front: &[u8],
    backs: &[&[u8]],
) -> Result<(), Fail> {
    for back in backs {
        let mut said = Vec::from_slice(rt.alloc(), front)?;
        said.extend_from_slice(back)?;
        breaks(rt, b"GET", &said)?;
    }
    Ok(())
}

// All bytes but the last are said, one by one, and more is wanted after each.
fn all_but_last(
    connection: Idle<Ear>,
    memory: &mut [u8],
    said: &[u8],
) -> Result<(Idle<Ear>, u8), Fail> {
    let Some((last, front)) = said.split_last() else {
        return Err(Fail::new("nothing is said"));
    };
    let mut connection = connection;
    for byte in front {
        connection = rest(connection.hear(&[*byte]), memory)?;
    }
    Ok((connection, *last))
}

fn one_asks(rt: &impl Abort, who: Who<'_>) -> Result<Idle<Ear>, Fail> {
    let mut connection = Idle::new();
    ask_by(rt, &mut connection, who.client, who.method)?;
    Ok(connection)
}

pub fn two_ask(rt: &impl Abort, method: &[u8]) -> Result<Idle<Ear>, Fail> {
    let mut connection = Idle::new();
    ask_by(rt, &mut connection, 3, method)?;
    ask_by(rt, &mut connection, 5, method)?;
    Ok(connection)
}

pub fn two_told(rt: &impl Abort, falling: Falling<Ear>, method: &[u8]) -> Result<(), Fail> {
    let first = Who {
        client: 3,
        number: 0,
        method,
    };
    let second = Who {
        client: 5,
        number: 1,
        method,
    };
    let falling = tell(rt, falling, first)?;
    all_told(rt, tell(rt, falling, second)?)?;
    Ok(())
}
