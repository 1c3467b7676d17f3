// One connection to a server, on which the requests of many clients follow each other: who waits, and who is given which response.
#![tactic(auto)]

pub mod hearing;
pub mod owners;
pub mod state;
