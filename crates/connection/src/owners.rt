// The owners that wait on a connection, in a ring of 64 places: the first place, and how many wait from there on, round the end. The places lie in
// the value itself, since this library takes no memory of its own.
use std::marker::Model;

pub mod ring;

// Whose request waits for its response: the client, the request's number on this connection, from 0, and its method: the first `method_len` of the
// letters, or all 16 where that is more. A caller may hold what it likes behind them, and is given back just that.
#[derive(Clone, Copy)]
pub struct Owner {
    pub client: usize,
    pub number: u64,
    pub letters: [u8; 16],
    pub method_len: usize,
}

#[derive(Drop)]
pub struct Owners {
    places: [Owner; 64],
    first: usize,
    count: usize,
}

// Clauses see the owners that wait, first to last, as they are held.
impl Model for Owners {
    ghost use Rattle.std.specs.Prelude.{List};
    ghost use Rattle.connection.specs.declared.owners.Owner.{Owner as Held};

    ghost Value = { List Held };

    ghost use Rattle.connection.specs.Owners.{queued, IsRing};

    ghost view = { λ q. queued q.places q.first q.count };

    ghost invariant = { λ q. IsRing q.places q.first q.count };
}
