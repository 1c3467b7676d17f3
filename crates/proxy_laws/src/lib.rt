// What the whole gate does over whole runs, as a theorem. It is a function whose contract is the theorem.
#![tactic(auto)]

ghost use Rattle.proxy_laws.specs.Whole.{WholeGate};

pub mod calls;

// Whatever came, in whatever pieces, at every moment: each server is sent only what was let pass, by its rules, and each client is given what belongs to its
// own requests, in their order.
pub fn whole_gate()
    ensures { WholeGate }
{}
