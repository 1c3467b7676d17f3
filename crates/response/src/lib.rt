// Responses: a server's bytes read strictly, piece by piece; the copy of a response that its client gets; and the refusals that the gate gives itself.
// Nothing here allocates; all memory is lent.
#![tactic(auto)]

pub mod copy;
pub mod found;
pub mod head;
pub mod reading;
pub mod refusal;
pub mod status;
#[cfg(test)]
mod tests;
