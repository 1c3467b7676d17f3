// What a line of a script says. A statement borrows its words from the line, as they stand there; reading has checked them.
use crate::payload::Payload;
use rules::Rule;

#[derive(Clone, Copy)]
pub enum Statement<'a> {
    // an empty line, or a comment
    Nothing,
    // the next server, by its name
    Server(&'a [u8]),
    // a rule of the server declared last: `-` or methods separated by commas, and `/` or parts that each follow a slash
    Rule(Rule<'a>),
    Event(Event<'a>),
}

#[derive(Clone, Copy)]
pub struct Event<'a> {
    pub sender: Sender,
    pub payload: Payload<'a>,
}

// Who sends, by its number from 1 on.
#[derive(Clone, Copy)]
pub enum Sender {
    Client(u8),
    Server(u8),
}
