// Servers that forgive: fourteen habits in which they are known to differ, as readers of requests and as views of a path. Each changes one thing of
// a common strict reader or view; the code is one for all, and asks for the habit where that thing is done.
#![tactic(auto)]

mod ask;
mod body;
pub mod field;
pub mod got;
pub mod habit;
mod length;
mod line;
pub mod path;
pub mod read;
mod told;
mod word;
