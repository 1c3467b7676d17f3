// Why no habit makes a server misread the canonical form: each of the fourteen meets what is asked of a reader and of a view.
#![tactic(auto)]

ghost use Rattle.std.specs.Prelude.{◌≡◌, IfOk};
ghost use Rattle.reader.specs.Reader.{read_all};
ghost use Rattle.forgiving.specs.Readers.{reader_with};
ghost use Rattle.forgiving.specs.Held.{view_requests};
ghost use Rattle.forgiving_laws.specs.Laws.{EachFair, EachViewFair, AllAlike, AllRuledAlike, ReadAlike};

#[cfg(test)]
mod tests;

use forgiving::habit::Habit;
use forgiving::read::Request;
use std::alloc::{AllocError, Global};

// All the requests that a server with this habit cuts out of a text. Where the text is canonical requests, one after the other and cut at any byte, they
// are those that lie whole in it, whatever the habit.
pub fn read_text(habit: Habit, heap: Global, text: &[u8]) -> Result<Vec<Request>, AllocError>
    ensures reads { IfOk result (λ qs. view_requests qs.items ≡ read_all (reader_with habit) text.now) }
    ensures alike { IfOk result (λ qs. ReadAlike text.now (view_requests qs.items)) }
{
    habit.read_all(heap, text)
}

// A reader with any of the habits is fair.
pub fn each_fair()
    ensures { EachFair }
{}

// So is a view.
pub fn each_view_fair()
    ensures { EachViewFair }
{}

// Whatever the habit, and however many bytes of canonical requests have come, the same requests are read.
pub fn all_alike()
    ensures { AllAlike }
{}

// And the rules of a server say the same of what is seen of a good place.
pub fn all_ruled_alike()
    ensures { AllRuledAlike }
{}
