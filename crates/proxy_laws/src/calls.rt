// The calls of the gate, one by one, with what holds of all that has happened: from any moment that calls can lead to, whatever came before, each leads to a
// moment at which the whole promise holds. A program that makes these calls, and no others, keeps it.
ghost use Rattle.text.specs.Bytes.{Text};
ghost use Rattle.proxy.specs.Calls.{ClientSent, GoesOn, NextSo, OpensSo, ServerSaid, TellSo};
ghost use Rattle.proxy_laws.specs.Calls.{ClientSentAt, GoesOnAt, NextAt, OpensAt, ServerSaidAt, TellAt};

use proxy::client::Turn;
use proxy::server::{Fallen, Heard, Next, Telling};
use proxy::state::{Misuse, Proxy};
use rules::Rule;

// The gate before the first event.
pub fn open<'s>(names: &'s [&'s [u8]], rules: &'s [&'s [Rule<'s>]]) -> Result<Proxy<'s>, Misuse>
    ensures opens { OpensSo names.now rules.now result }
    ensures promised { OpensAt names.now rules.now result }
{
    Proxy::new(names, rules)
}

// A client sent something.
pub fn client_sent(proxy: &mut Proxy, client: usize) -> Result<(), Misuse>
    ensures sent { ClientSent client proxy.old proxy.new result }
    ensures promised { ClientSentAt client proxy.old proxy.new result }
{
    proxy.client_sent(client)
}

// The first client in the line goes on.
pub fn go_on(
    proxy: &mut Proxy,
    memory: &mut [u8],
    unread: &[u8],
    out: &mut [u8],
) -> Result<Turn, Misuse>
    ensures goes { GoesOn proxy.old proxy.new memory.old memory.new unread.now out.old out.new result }
    ensures promised { GoesOnAt proxy.old proxy.new memory.old memory.new unread.now out.old out.new result }
{
    proxy.go_on(memory, unread, out)
}

// A server said something.
pub fn server_said<'p>(
    proxy: &mut Proxy,
    server: usize,
    piece: &'p [u8],
) -> Result<Heard<'p>, Misuse>
    ensures said { ServerSaid server piece.now proxy.old proxy.new result }
    ensures promised { ServerSaidAt server piece.now proxy.old proxy.new result }
{
    proxy.server_said(server, piece)
}

// What comes next of it.
pub fn next<'p>(
    proxy: &mut Proxy,
    heard: Heard<'p>,
    memory: &mut [u8],
) -> Result<Next<'p>, Heard<'p>>
    ensures next { NextSo heard.entry proxy.old proxy.new memory.old memory.new result }
    ensures promised { NextAt heard.entry proxy.old proxy.new memory.old memory.new result }
{
    proxy.next(heard, memory)
}

// The next owner who is told that the connection went down.
pub fn tell(proxy: &mut Proxy, fallen: Fallen) -> Telling
    ensures tells { TellSo fallen proxy.old proxy.new result }
    ensures promised { TellAt fallen proxy.old proxy.new result }
{
    proxy.tell(fallen)
}
