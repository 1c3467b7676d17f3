// A script read line by line: servers and rules go into the settings, and the first event ends them. What was read is held, not the
// lines: events pass through, so that memory does not grow with them.
ghost use Rattle.std.specs.Prelude.{◌≡◌, true, false, length, IfOk, MatchResult, Ok};
ghost use Rattle.script.specs.Settings.{Took, servers_in};
ghost use Rattle.script.specs.Statements.{said_by, statement_of, Sound};
ghost use Rattle.script.specs.Scripts.{script_in, begun, known, started, applied, copied, unread, line_taken, line_copied};

use crate::problem::Problem;
use crate::read::read_statement;
use crate::settings::Settings;
use crate::statement::{Sender, Statement};
use std::alloc::Global;

// What may come next: settings and events, or events alone.
#[derive(Clone, Copy)]
pub enum Phase {
    Settings,
    Events,
}

#[derive(Drop)]
pub struct Script {
    settings: Settings,
    phase: Phase,
}

impl Script {
    // Before the first line.
    pub fn new(heap: Global) -> Script
        ensures { script_in result ≡ unread }
    {
        Script {
            settings: Settings::new(heap),
            phase: Phase::Settings,
        }
    }

    // The settings so far.
    pub fn settings(&self) -> &Settings
        ensures { servers_in result.now ≡ (script_in self.now).servers }
    {
        &self.settings
    }

    // Whether a setting may come still.
    fn may_set(&self) -> Result<(), Problem>
        ensures { MatchResult result (λ _. self.now.phase ≡ Phase.Settings) (λ p. (self.now.phase ≡ Phase.Events) × (p ≡ Problem.SettingAfterEvent)) }
    {
        match self.phase {
            Phase::Settings => Ok(()),
            Phase::Events => Err(Problem::SettingAfterEvent),
        }
    }

    fn knows(&self, sender: Sender) -> bool
        ensures { result ≡ known sender (length (servers_in self.now.settings)) }
    {
        match sender {
            Sender::Client(_) => true,
            Sender::Server(n) => (1..=self.settings.server_count()).contains(&usize::from(n)),
        }
    }

    fn take_event(&mut self, sender: Sender) -> Result<(), Problem>
        ensures { Took false (script_in self.old) (started sender (script_in self.old)) (script_in self.new) result }
    {
        if !self.knows(sender) {
            return Err(Problem::UnknownServer);
        }
        self.phase = Phase::Events;
        Ok(())
    }

    // Takes one more statement.
    pub fn take(&mut self, statement: Statement<'_>) -> Result<(), Problem>
        ensures { Took (copied (said_by statement.entry)) (script_in self.old) (applied (said_by statement.entry) (script_in self.old)) (script_in self.new) result }
    {
        match statement {
            Statement::Nothing => Ok(()),
            Statement::Server(name) => {
                self.may_set()?;
                self.settings.add_server(name)
            }
            Statement::Rule(rule) => {
                self.may_set()?;
                self.settings.add_rule(rule)
            }
            Statement::Event(event) => self.take_event(event.sender),
        }
    }

    // Reads one more line and takes what it says.
    pub fn read_line<'a>(&mut self, line: &'a [u8]) -> Result<Statement<'a>, Problem>
        ensures takes { Took (line_copied (statement_of line.now)) (script_in self.old) (line_taken line.now (script_in self.old)) (script_in self.new) result }
        ensures says { IfOk result (λ s. statement_of line.now ≡ Ok (said_by s)) }
        ensures sound { IfOk result Sound }
    {
        let statement = read_statement(line)?;
        self.take(statement)?;
        Ok(statement)
    }

    // Reads one more line as it is read behind the first event: no setting may come, and nothing is to be changed.
    pub fn read_later<'a>(&self, line: &'a [u8]) -> Result<Statement<'a>, Problem>
        ensures takes { Took false (begun (script_in self.now)) (line_taken line.now (begun (script_in self.now))) (begun (script_in self.now)) result }
        ensures says { IfOk result (λ s. statement_of line.now ≡ Ok (said_by s)) }
        ensures sound { IfOk result Sound }
    {
        let statement = read_statement(line)?;
        match statement {
            Statement::Nothing => Ok(statement),
            Statement::Server(_) | Statement::Rule(_) => Err(Problem::SettingAfterEvent),
            Statement::Event(event) if self.knows(event.sender) => Ok(statement),
            Statement::Event(_) => Err(Problem::UnknownServer),
        }
    }
}
