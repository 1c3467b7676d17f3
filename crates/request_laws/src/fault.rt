// The first fault, by the grammar that it breaks.
ghost use Rattle.request_laws.specs.FaultLaws.{HeadsRefused, TargetsRefused, FaultIsFirst};

// A head is refused exactly where a line or the whole of it breaks the grammar.
pub fn heads_refused()
    ensures { HeadsRefused }
{}

// A target is refused exactly where it breaks the grammar.
pub fn targets_refused()
    ensures { TargetsRefused }
{}

// The fault that is found is the first in the stated order.
pub fn fault_is_first()
    ensures { FaultIsFirst }
{}
