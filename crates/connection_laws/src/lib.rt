// What a shared connection does over whole runs, as theorems. Each is a function whose contract is the theorem.
#![tactic(auto)]

ghost use Rattle.connection_laws.specs.Laws.{AtRest, OnlyGrows, OnlyOwners, EveryoneServed, NothingIsLost, Settled, NobodyEarly, ToOwner, CutFree};
ghost use Rattle.connection_laws.specs.Promise.{Main};

pub mod calls;

// Where a connection rests it is what its events make of it, whatever the calls were.
pub fn at_rest()
    ensures { AtRest }
{}

// What was given, told and sent stays so.
pub fn only_grows()
    ensures { OnlyGrows }
{}

// Whatever a server does, nobody is given a response but an owner whose turn it is.
pub fn only_owners()
    ensures { OnlyOwners }
{}

// Everyone whose request went out has been given a last response, was told, or still waits.
pub fn everyone_served()
    ensures { EveryoneServed }
{}

// What a server says is the texts of what was handed over, and what is left.
pub fn nothing_is_lost()
    ensures { NothingIsLost }
{}

// Where a connection rests, nothing that is whole waits, and nothing for an owner who has not asked yet.
pub fn settled()
    ensures { Settled }
{}

// Nobody is given a byte that was said before their own request went out.
pub fn nobody_early()
    ensures { NobodyEarly }
{}

// An honest server's responses go each to the client who asked.
pub fn to_owner()
    ensures { ToOwner }
{}

// Where what a server says is cut makes no difference.
pub fn cut_free()
    ensures { CutFree }
{}

// The whole promise, for every fair reader and fair view, any rules, and whatever the server says.
pub fn main_promise()
    ensures { Main }
{}
