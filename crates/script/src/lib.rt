// Scripts: settings and events as text, one statement a line. A line is read into a statement or a named problem (`read`), an event's
// bytes are spelled out (`payload`), and statements are taken one after the other (`progress`), into settings (`settings`).
// specs/Statements.antt is the grammar, specs/Scripts.antt what a line makes of a script.
#![tactic(auto)]

pub mod hosts;
pub mod payload;
pub mod problem;
pub mod progress;
pub mod read;
mod series;
pub mod settings;
pub mod statement;
mod word;
