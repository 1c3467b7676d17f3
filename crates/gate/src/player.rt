// The gate at play. It is told what each event sends, and then asked for one thing after the other until it rests; what it does is told as lines of text.
use crate::line::Line;
use crate::stop::Stop;
use crate::unread::Unread;
use message::fault::Fault;
use proxy::client::{Did, Turn};
use proxy::server::{Answer, Fallen, Heard, Next, Telling};
use proxy::state::{CLIENTS, Misuse, Proxy, SLAB};
use proxy_laws::calls;
use report::tell;
use request::canonical::Full;
use request::reading::MEMORY;
use response::refusal::write_refusal;
use rules::Rule;
use script::statement::Sender;
use std::alloc::Global;

#[derive(Drop)]
pub struct Player<'s> {
    proxy: Proxy<'s>,
    // lent to the gate: what it has read of requests and responses, and what it sends to a server or a client
    memory: Vec<u8>,
    out: Vec<u8>,
    // what each client sent and no request has taken; none where its connection was ended
    unread: Vec<Option<Unread>>,
    // the lines that are still to be printed
    text: Vec<u8>,
}

// The place of a client or a server in the gate's lists, which are counted from 0.
fn place(number: u8) -> Result<usize, Misuse> {
    usize::from(number).checked_sub(1).ok_or(Misuse::Nobody)
}

// What a client sent and no request has taken.
fn bytes_of(unread: &[Option<Unread>], client: usize) -> &[u8] {
    match unread.get(client) {
        Some(Some(unread)) => unread.as_slice(),
        _ => b"",
    }
}

impl<'s> Player<'s> {
    // Before the first event. The servers by their names and their rules.
    pub fn new(
        heap: Global,
        names: &'s [&'s [u8]],
        rules: &'s [&'s [Rule<'s>]],
    ) -> Result<Player<'s>, Stop> {
        Ok(Player {
            proxy: calls::open(names, rules)?,
            memory: vec![in heap; 0; SLAB]?,
            out: vec![in heap; 0; MEMORY]?,
            unread: (0..CLIENTS).map(|_| Some(Unread::new(heap))).collect(heap)?,
            text: Vec::new(heap),
        })
    }

    // The lines that are still to be printed.
    pub fn text(&self) -> &[u8] {
        &self.text
    }

    // They were printed.
    pub fn printed(&mut self) {
        self.text.clear();
    }

    // Plays one event to its end.
    pub fn play(&mut self, sender: Sender, bytes: &[u8]) -> Result<(), Stop> {
        match sender {
            Sender::Client(number) => self.client_sends(place(number)?, bytes)?,
            Sender::Server(number) => self.server_says(place(number)?, bytes)?,
        }
        self.go_on()
    }

    // A client sends something: it is unread now, but for what comes from a client whose connection was ended.
    fn client_sends(&mut self, client: usize, bytes: &[u8]) -> Result<(), Stop> {
        calls::client_sent(&mut self.proxy, client)?;
        if let Some(Some(unread)) = self.unread.get_mut(client) {
            unread.extend(bytes)?;
        }
        Ok(())
    }

    // A server says something, which is heard whole: each response is given to its client.
    fn server_says(&mut self, server: usize, piece: &[u8]) -> Result<(), Stop> {
        let mut heard = calls::server_said(&mut self.proxy, server, piece)?;
        // counted, since no clause says that a turn takes a byte, as each but the last does
        for _ in 0..u64::MAX {
            heard = match self.next(heard) {
                Ok(Next::Answer(heard, answer)) => {
                    self.answer(&answer)?;
                    heard
                }
                Ok(Next::Down(fallen)) => return self.fall(fallen),
                Ok(Next::Rest) => break,
                Err(_) => return Err(Stop::Misuse(Misuse::Memory)),
            };
        }
        Ok(())
    }

    // What comes next of a piece. Not inlined: clang does not end within minutes over a function that holds it and a loop.
    #[inline(never)]
    fn next<'p>(&mut self, heard: Heard<'p>) -> Result<Next<'p>, Heard<'p>> {
        calls::next(&mut self.proxy, heard, &mut self.memory)
    }

    // A connection went down: each owner who waits is told, in order.
    fn fall(&mut self, fallen: Fallen) -> Result<(), Stop> {
        tell(&Line::DownServer(fallen.server), &mut self.text)?;
        let mut fallen = fallen;
        // counted, since no clause says that an owner is told once
        for _ in 0..u64::MAX {
            fallen = match calls::tell(&mut self.proxy, fallen) {
                Telling::Tell(fallen, owner) => {
                    self.refuse(owner.client, Fault::Down)?;
                    fallen
                }
                Telling::Rest => break,
            };
        }
        Ok(())
    }

    // The clients that are to go on do so, until the gate rests.
    fn go_on(&mut self) -> Result<(), Stop> {
        // counted, since no clause says that a turn takes a byte or a client out of the line, as each does
        for _ in 0..u64::MAX {
            let Some(client) = self.proxy.first() else {
                break;
            };
            self.take_turn(client)?;
        }
        Ok(())
    }

    // The client that is first in the line does one thing.
    fn take_turn(&mut self, client: usize) -> Result<(), Stop> {
        let unread = bytes_of(&self.unread, client);
        let turn = calls::go_on(&mut self.proxy, &mut self.memory, unread, &mut self.out)?;
        if let Some(Some(unread)) = self.unread.get_mut(client) {
            unread.take(turn.taken);
        }
        self.tell_turn(turn)
    }

    // Tells what a turn came to.
    fn tell_turn(&mut self, turn: Turn) -> Result<(), Stop> {
        match turn.did {
            Did::Nothing => Ok(()),
            Did::Sent { server, len } => self.send(server, len),
            Did::Refused(fault) => {
                self.refuse(turn.client, fault)?;
                if fault.ends_client() {
                    self.end(turn.client)?;
                }
                Ok(())
            }
        }
    }

    // A request of so many bytes, at the front of the output, goes out to a server.
    fn send(&mut self, server: usize, len: usize) -> Result<(), Stop> {
        let request = self.out.get(..len).ok_or(Misuse::Room)?;
        tell(&Line::ToServer(server, request), &mut self.text)?;
        Ok(())
    }

    // A response of so many bytes, at the front of the output, is given to a client.
    fn give(&mut self, client: usize, len: usize) -> Result<(), Stop> {
        let response = self.out.get(..len).ok_or(Misuse::Room)?;
        tell(&Line::ToClient(client, response), &mut self.text)?;
        Ok(())
    }

    // Writes a server's response to the front of the output, which is made larger where it has too little room.
    fn write(&mut self, answer: &Answer) -> Result<usize, Stop> {
        match answer.write(&self.memory, &mut self.out) {
            Ok(len) => Ok(len),
            Err(Full { wanted }) => {
                self.out.resize(wanted, 0)?;
                Ok(answer.write(&self.memory, &mut self.out)?)
            }
        }
    }

    // A server's response is given to the client who waited for it.
    fn answer(&mut self, answer: &Answer) -> Result<(), Stop> {
        let len = self.write(answer)?;
        self.give(answer.handed.owner.client, len)
    }

    // A refusal is given to a client.
    fn refuse(&mut self, client: usize, fault: Fault) -> Result<(), Stop> {
        let len = write_refusal(fault, &mut self.out)?;
        self.give(client, len)
    }

    // A client's connection is ended: nothing of what it sends is read any more.
    fn end(&mut self, client: usize) -> Result<(), Stop> {
        if let Some(unread) = self.unread.get_mut(client) {
            *unread = None;
        }
        tell(&Line::EndClient(client), &mut self.text)?;
        Ok(())
    }
}
