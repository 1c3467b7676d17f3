// The lines of a script, read one after the other: first the settings, up to the first event, and then the events.
use crate::stop::Stop;
use script::problem::Problem;
use script::progress::Script;
use script::read::is_passed_over;
use script::statement::{Sender, Statement};
use std::alloc::Global;
use std::io;
use std::io::BufRead;

// The input, of which `number` lines were read, with the last of them and the bytes of the last event.
#[derive(Drop)]
pub struct Lines<R> {
    input: R,
    number: u64,
    line: Vec<u8>,
    bytes: Vec<u8>,
}

// Who sends what, of a statement that is an event; the bytes are put into `bytes`.
fn take_event(statement: Statement<'_>, bytes: &mut Vec<u8>) -> Result<Option<Sender>, Problem> {
    match statement {
        Statement::Event(event) => {
            event.payload.decode(bytes)?;
            Ok(Some(event.sender))
        }
        _ => Ok(None),
    }
}

impl<R: BufRead + Drop> Lines<R> {
    // Before the first line.
    pub fn new(heap: Global, input: R) -> Lines<R> {
        Lines {
            input,
            number: 0,
            line: Vec::new(heap),
            bytes: Vec::new(heap),
        }
    }

    // The bytes of the last event.
    pub fn bytes(&self) -> &[u8] {
        &self.bytes
    }

    // Reads on to a line that is not passed over, and cuts off its end; says whether there was one. Empty lines and comments say nothing, and end here: to
    // ask of each what it says took nearly half of the time of a script of many. No `split`: with a line made anew for each turn a million short events
    // take a third longer.
    fn next(&mut self) -> io::Result<bool> {
        // counted, since no clause says that the input ends
        for _ in 0..u64::MAX {
            self.line.clear();
            if self.input.read_until(b'\n', &mut self.line)? == 0 {
                break;
            }
            if self.line.last() == Some(&b'\n') {
                let _ = self.line.pop();
            }
            self.number = self.number.saturating_add(1);
            if !is_passed_over(&self.line) {
                return Ok(true);
            }
        }
        Ok(false)
    }

    // Takes a line of the settings, or the first event.
    fn take_first(&mut self, script: &mut Script) -> Result<Option<Sender>, Stop> {
        script_laws::read_line(script, &self.line)
            .and_then(|statement| take_event(statement, &mut self.bytes))
            .map_err(|problem| Stop::Line(self.number, problem))
    }

    // Reads the settings, and the first event if there is one.
    pub fn first_event(&mut self, script: &mut Script) -> Result<Option<Sender>, Stop> {
        // counted, since no clause says that the input ends
        for _ in 0..u64::MAX {
            if !self.next()? {
                break;
            }
            if let Some(sender) = self.take_first(script)? {
                return Ok(Some(sender));
            }
        }
        Ok(None)
    }

    // Takes a line behind the first event.
    fn take_later(&mut self, script: &Script) -> Result<Option<Sender>, Stop> {
        script
            .read_later(&self.line)
            .and_then(|statement| take_event(statement, &mut self.bytes))
            .map_err(|problem| Stop::Line(self.number, problem))
    }

    // Reads the next event, if there is one.
    pub fn next_event(&mut self, script: &Script) -> Result<Option<Sender>, Stop> {
        // counted, since no clause says that the input ends
        for _ in 0..u64::MAX {
            if !self.next()? {
                break;
            }
            if let Some(sender) = self.take_later(script)? {
                return Ok(Some(sender));
            }
        }
        Ok(None)
    }
}
