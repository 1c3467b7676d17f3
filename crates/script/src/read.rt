// A line read into a statement: by the words that it begins with, and then word by word, each cut off and checked where it stands.
// Nothing is copied, and no byte is looked at more than a few times. That an event's bytes are well spelled is a clause of each reader, `sound`, and no
// part of the type: whoever builds an event would have to show it.
ghost use Rattle.std.specs.Prelude.{◌≡◌, true, IfOk, Ok};
ghost use Rattle.script.specs.Statements.{view, Sound, nothing, statement_of, server_of, rule_of, event_of, sent_of, number_in, sender_of, passed_over};

use crate::payload::read_payload;
use crate::problem::Problem;
use crate::series::{check_methods, check_path};
use crate::statement::{Event, Sender, Statement};
use crate::word::Word;
use rules::{Rule, Verdict};
use text::mark::{after, cut};
use text::numeral::{Base, read_number};

// The side that an event comes from. A value and no closure, since contracts name it.
#[derive(Clone, Copy)]
enum Side {
    Client,
    Server,
}

// The number that one digit or two spell without a zero in front, where it is at most `most`.
#[tactic(auto, using(crate::proofs::Numbers::small_number, crate::proofs::Numbers::as_byte, crate::proofs::Numbers::no_byte))]
fn read_small(word: &[u8], most: u8) -> Option<u8>
    ensures { result ≡ number_in most word.now }
{
    if word.len() > 2 || word.starts_with(b"0") {
        return None;
    }
    let n = u8::try_from(read_number(word, Base::Decimal)?).ok()?;
    (n <= most).then_some(n)
}

impl Side {
    // The sender of this side whose number a word spells.
    fn read_sender(self, number: &[u8]) -> Result<Sender, Problem>
        ensures { result ≡ sender_of self number.now }
    {
        match self {
            Side::Client => read_small(number, 16)
                .map(Sender::Client)
                .ok_or(Problem::ClientNumber),
            Side::Server => read_small(number, 8)
                .map(Sender::Server)
                .ok_or(Problem::ServerNumber),
        }
    }
}

fn read_server(name: &[u8]) -> Result<Statement<'_>, Problem>
    ensures is { view result ≡ server_of name.now }
    ensures sound { IfOk result Sound }
{
    if Word::Name.is(name) {
        Ok(Statement::Server(name))
    } else {
        Err(Problem::ServerName)
    }
}

fn read_rule(verdict: Verdict, rest: &[u8]) -> Result<Statement<'_>, Problem>
    ensures is { view result ≡ rule_of verdict rest.now }
    ensures sound { IfOk result Sound }
{
    let (methods, path) = cut(rest, b' ').ok_or(Problem::RuleWords)?;
    check_methods(methods)?;
    check_path(path)?;
    Ok(Statement::Rule(Rule {
        verdict,
        methods,
        path,
    }))
}

fn read_event(side: Side, rest: &[u8]) -> Result<Statement<'_>, Problem>
    ensures is { view result ≡ event_of side rest.now }
    ensures sound { IfOk result Sound }
{
    let (number, word) = cut(rest, b' ').ok_or(Problem::EventWords)?;
    let sender = side.read_sender(number)?;
    let payload = read_payload(word)?;
    Ok(Statement::Event(Event { sender, payload }))
}

// An event, from either side.
fn read_sent(line: &[u8]) -> Result<Statement<'_>, Problem>
    ensures is { view result ≡ sent_of line.now }
    ensures sound { IfOk result Sound }
{
    if let Some(rest) = after(line, b"from client ") {
        return read_event(Side::Client, rest);
    }
    if let Some(rest) = after(line, b"from server ") {
        return read_event(Side::Server, rest);
    }
    Err(Problem::UnknownStatement)
}

// Whether a line is passed over: an empty one, or a comment. Such a line says nothing.
pub fn is_passed_over(line: &[u8]) -> bool
    ensures is { result ≡ passed_over line.now }
    ensures silent { result ≡ true → statement_of line.now ≡ Ok nothing }
{
    matches!(line, [] | [b'#', ..])
}

// What a line of a script says, or what is wrong with it.
pub fn read_statement(line: &[u8]) -> Result<Statement<'_>, Problem>
    ensures is { view result ≡ statement_of line.now }
    ensures sound { IfOk result Sound }
{
    if is_passed_over(line) {
        return Ok(Statement::Nothing);
    }
    if let Some(name) = after(line, b"server ") {
        return read_server(name);
    }
    if let Some(rest) = after(line, b"allow ") {
        return read_rule(Verdict::Allow, rest);
    }
    if let Some(rest) = after(line, b"deny ") {
        return read_rule(Verdict::Deny, rest);
    }
    read_sent(line)
}
