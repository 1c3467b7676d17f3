// The laws of a shared connection, at the reader of responses that stands on the gate's connections.
#![tactic(auto)]

ghost use Rattle.ear_laws.specs.AtEar.{AtEar};

// Each response goes to the client who asked, and all else that is promised of a connection: nothing is left open.
pub fn at_ear()
    ensures { AtEar }
{}
