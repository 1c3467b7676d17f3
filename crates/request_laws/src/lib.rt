// What the reading of requests means, as theorems. Each is a function whose contract is the theorem.
#![tactic(auto)]

ghost use Rattle.request_laws.specs.Laws.{CutFree, Stays, ReadIffSpelled, CanonicalAgain, LetPass};

pub mod fault;
pub mod head;
pub mod once;
pub mod piece;
pub mod target;

// Feeding the bytes in any pieces finds what reading them all at once finds.
pub fn cut_free()
    ensures { CutFree }
{}

// What was found stays found, whatever follows.
pub fn stays()
    ensures { Stays }
{}

// A request is let pass exactly where the grammar holds of the first bytes, and it takes exactly those.
pub fn read_iff_spelled()
    ensures { ReadIffSpelled }
{}

// The canonical form of what was let pass, read again, gives itself back.
pub fn canonical_again()
    ensures { CanonicalAgain }
{}

// What is let pass is canonical, and its target is that of a good place.
pub fn let_pass()
    ensures { LetPass }
{}
