// What the reading of servers' bytes means, as theorems. Each is a function whose contract is the theorem.
#![tactic(auto)]

ghost use Rattle.response_laws.specs.Feeding.{ResponseCutFree};
ghost use Rattle.response_laws.specs.Laws.{SteadyEar, ResponseIffSpelled, CopyAgain};
ghost use Rattle.response_laws.specs.StatusLaws.{StatusRead};

// What was found stays found when more comes, and was found in bytes of its own.
pub fn steady_ear()
    ensures { SteadyEar }
{}

// A first line says a status exactly where the grammar holds of it.
pub fn status_read()
    ensures { StatusRead }
{}

// A whole response is found exactly where the grammar holds of the first bytes.
pub fn response_iff_spelled()
    ensures { ResponseIffSpelled }
{}

// What the client gets, read again for the same method, gives itself back.
pub fn copy_again()
    ensures { CopyAgain }
{}

// Feeding a server's bytes in any pieces finds what the ear finds in all of them at once.
pub fn cut_free()
    ensures { ResponseCutFree }
{}
