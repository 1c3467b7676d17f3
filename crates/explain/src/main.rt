// Explains what a client sends: the settings come from a file, the client's bytes on standard input, and what is found of each request is
// printed, with what the rules of its server say. Memory for one request, one piece of input and its text is held, and used again.
#![tactic(auto)]

use message::fault::{Fault, Unfit};
use message::sent_field::blank_fields;
use report::tell;
use request::found::Found;
use request::reading::{MEMORY, Reading};
use request::sent::SentRequest;
use rules::judge;
use script::hosts::Hosts;
use script::problem::Problem;
use script::progress::Script;
use script::settings::Server;
use script::statement::Statement;
use std::alloc::{AllocError, Global};
use std::fs::File;
use std::io::{BufRead, BufReader, Read, Write};
use std::process::ExitCode;
use std::{env, io};
use thiserror::Error;

// How much of the input is read at a time.
const PIECE: usize = 65536;

// Why settings could not be taken.
#[derive(Debug, Drop, Error)]
enum Unread {
    // a line, by its number from 1 on, and what is wrong with it
    #[error("line {0}: {1}")]
    Line(u64, Problem),
    // a line that is an event
    #[error("line {0}: settings have no events")]
    Event(u64),
    #[error(transparent)]
    Io(#[from] io::Error),
}

// Why a run ended before the client's bytes did.
#[derive(Debug, Drop, Error)]
enum Stop {
    // the arguments are not one name of a file
    #[error("usage: explain SETTINGS")]
    Usage,
    // the settings in the file of this name
    #[error("{0}: {1}")]
    Settings(String, Unread),
    // the memory is not of the size that is wanted
    #[error("the memory is not of the size that is wanted")]
    Memory,
    #[error(transparent)]
    Io(#[from] io::Error),
}

// By hand, since the variant holds another error: a want of memory is told as one of input and output.
impl From<AllocError> for Stop {
    fn from(error: AllocError) -> Stop {
        Stop::Io(io::Error::from(error))
    }
}

// By hand, since the variant holds no error: there is nothing in it to be told.
impl From<Unfit> for Stop {
    fn from(_error: Unfit) -> Stop {
        Stop::Memory
    }
}

// The name of the settings' file: the one argument.
fn settings_name(rt: &HostRuntime) -> Result<String, Stop> {
    let mut args = env::args(rt)?;
    let _ = args.next();
    match (args.next(), args.next()) {
        (Some(name), None) => Ok(name),
        _ => Err(Stop::Usage),
    }
}

// Takes one line of the settings, without its end.
fn take_line(script: &mut Script, number: u64, line: &[u8]) -> Result<(), Unread> {
    match script.read_line(line) {
        Ok(Statement::Event(_)) => Err(Unread::Event(number)),
        Ok(_) => Ok(()),
        Err(problem) => Err(Unread::Line(number, problem)),
    }
}

fn read_settings(rt: &HostRuntime, name: &str) -> Result<Script, Unread> {
    let mut script = Script::new(rt.alloc());
    let mut input = BufReader::new(rt.alloc(), File::open(rt, name)?)?;
    let mut line = Vec::new(rt.alloc());
    // no `split`: with a line made anew for each turn, settings of many short comments take twice as long
    for number in 1..u64::MAX {
        line.clear();
        if input.read_until(b'\n', &mut line)? == 0 {
            break;
        }
        if line.last() == Some(&b'\n') {
            let _ = line.pop();
        }
        take_line(&mut script, number, &line)?;
    }
    Ok(script)
}

// Whether there is a server of this number, and its rules allow a request.
fn allows(hosts: &Hosts<'_>, number: usize, request: &SentRequest<'_, '_>) -> bool {
    hosts.rules.get(number).is_some_and(|rules| judge(
        rules,
        request.method,
        request.target,
    ).allows())
}

// What has been found, where the rules are asked too.
fn ruled<'f, 'm>(hosts: &Hosts<'_>, found: Found<'f, 'm>) -> Found<'f, 'm> {
    match found {
        Found::Request(number, request) if !allows(hosts, number, &request) => {
            Found::Fault(Fault::Denied.at(0))
        }
        _ => found,
    }
}

// Tells what has been found of the request in hand, unless more of it is wanted. Gives what is read next; none where it is not known where the
// next request would begin.
fn tell_found(
    hosts: &Hosts<'_>,
    reading: Reading,
    memory: &[u8],
    text: &mut Vec<u8>,
) -> Result<Option<Reading>, Stop> {
    let mut fields = blank_fields();
    let found = ruled(hosts, reading.found(memory, &mut fields)?);
    if let Found::More = found {
        return Ok(Some(reading));
    }
    tell(&found, text)?;
    match found {
        Found::Fault(flaw) if flaw.fault.ends_client() => Ok(None),
        _ => Ok(Some(Reading::new())),
    }
}

// A client, as far as its bytes have come, with memory for one request and for text that is still to be printed.
#[derive(Drop)]
struct Client<'s> {
    hosts: Hosts<'s>,
    // how far the request in hand has been read; none where nothing is read any more
    reading: Option<Reading>,
    memory: Vec<u8>,
    text: Vec<u8>,
}

impl<'s> Client<'s> {
    // Before its first byte.
    fn new(heap: Global, servers: &'s [Server]) -> Result<Client<'s>, AllocError> {
        Ok(Client {
            hosts: Hosts::new(heap, servers)?,
            reading: Some(Reading::new()),
            memory: vec![in heap; 0; MEMORY]?,
            text: Vec::new(heap),
        })
    }

    // Reads a piece, and tells what is found in it.
    fn take(&mut self, piece: &[u8]) -> Result<(), Stop> {
        let mut rest = piece;
        // counted, since no clause says that a turn takes a byte, as each does
        for _ in 0..piece.len() {
            let Some(reading) = self.reading else {
                break;
            };
            if rest.is_empty() {
                break;
            }
            let fed = reading.feed(&mut self.memory, rest, &self.hosts.names)?;
            rest = &rest[fed.taken.min(rest.len())..];
            self.reading = tell_found(&self.hosts, fed.reading, &self.memory, &mut self.text)?;
        }
        Ok(())
    }

    // Where the bytes have ended: tells that more of the request in hand is wanted, if at least one byte of it has come.
    fn end(&mut self) -> Result<(), Stop> {
        if let Some(reading) = self.reading {
            if let Reading::InHead(0) = reading {
                return Ok(());
            }
            let mut fields = blank_fields();
            tell(&reading.found(&self.memory, &mut fields)?, &mut self.text)?;
        }
        Ok(())
    }
}

fn explain(rt: &HostRuntime, servers: &[Server]) -> Result<(), Stop> {
    let mut input = rt.stdin();
    let mut output = rt.stdout();
    let mut piece = vec![in rt.alloc(); 0; PIECE]?;
    let mut client = Client::new(rt.alloc(), servers)?;
    // counted, since no clause says that the input ends
    for _ in 0..u64::MAX {
        let n = input.read(&mut piece)?;
        if n == 0 {
            break;
        }
        client.take(&piece[..n])?;
        output.write_all(&client.text)?;
        client.text.clear();
        if client.reading.is_none() {
            return Ok(());
        }
    }
    client.end()?;
    output.write_all(&client.text)?;
    Ok(())
}

fn run(rt: &HostRuntime) -> Result<(), Stop> {
    let name = settings_name(rt)?;
    let script = match read_settings(rt, &name) {
        Ok(script) => script,
        Err(unread) => return Err(Stop::Settings(name, unread)),
    };
    explain(rt, &script.settings().servers)
}

fn main(rt: HostRuntime) -> ExitCode {
    let Err(stop) = run(&rt) else {
        return ExitCode::SUCCESS;
    };
    let _ = eprintln!(rt; "{stop}");
    ExitCode::FAILURE
}
