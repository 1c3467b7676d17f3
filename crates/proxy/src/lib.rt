// The whole gate as a machine: clients that share one connection to each server. It is told that bytes have come, and then asked for one thing after the
// other until it rests; so it keeps no list of what is to go out. It allocates nothing: a slot of memory for each client and each connection is lent to each call
// in one slab, and what a client sent and the gate has not read stays with the caller.
#![tactic(auto)]

pub mod client;
pub mod connections;
pub mod server;
pub mod state;
