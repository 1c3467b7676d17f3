// What requests and responses share: faults and their places, fields as they are sent and written, how a body is framed, chunked bodies.
// Nothing here allocates; all memory is lent.
#![tactic(auto)]

pub mod body;
pub mod chunked;
pub mod fault;
pub mod field;
pub mod framing;
pub mod hop;
pub mod sent;
pub mod sent_field;
