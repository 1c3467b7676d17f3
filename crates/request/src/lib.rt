// Requests: a client's bytes read strictly, piece by piece; the canonical form of what they mean, and how it is written.
#![tactic(auto)]

pub mod canonical;
pub mod first;
pub mod found;
pub mod head;
pub mod host;
pub mod reading;
pub mod sent;
pub mod target;
#[cfg(test)]
mod tests;
