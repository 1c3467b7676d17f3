// Worked cases, on which the meaning of the rules can be seen: what comes and what goes out, byte by byte.
#![tactic(auto)]

ghost use Rattle.worked.specs.Laws.{PlaysOneWay, WorkedCases, WorkedFaults};

#[cfg(test)]
mod tests;

// The machine of the gate does in each case what its row says.
pub fn worked_cases()
    ensures { WorkedCases }
{}

// It cannot go otherwise: what comes decides what goes out.
pub fn plays_one_way()
    ensures { PlaysOneWay }
{}

// The requests that are refused have the faults that their rows say, at these places.
pub fn worked_faults()
    ensures { WorkedFaults }
{}
