// Methods and paths: words that a mark separates. The pieces are looked at one after the other, each byte twice at most, and no further than
// the first that is wrong or one too many.
ghost use Rattle.std.specs.Prelude.{◌≡◌};
ghost use Rattle.script.specs.Series.{Checks, methods, parts, pieces_of, pieces_in, methods_of, methods_in, parts_of, parts_in};

use crate::problem::Problem;
use crate::word::Word;
use text::mark::{after, pieces};

// What the words of a series are, what separates them, how many there may be, and what is wrong where one is no such word, or one too many.
#[derive(Clone, Copy)]
pub struct Series {
    word: Word,
    mark: u8,
    most: usize,
    wrong: Problem,
    too_many: Problem,
}

const METHODS: Series = Series {
    word: Word::Method,
    mark: b',',
    most: 8,
    wrong: Problem::Methods,
    too_many: Problem::TooManyMethods,
};

const PARTS: Series = Series {
    word: Word::Part,
    mark: b'/',
    most: 16,
    wrong: Problem::Path,
    too_many: Problem::TooManyParts,
};

impl Series {
    // Whether the pieces of a text are good words, and not too many.
    #[tactic(auto, using(crate::proofs::Judging::judged_none, crate::proofs::Judging::judged_one, crate::proofs::Judging::judged_over))]
    fn check(self, t: &[u8]) -> Result<(), Problem>
        ensures { Checks result (pieces_of self t.now) (pieces_in self t.now) }
    {
        // by `next`, since the bound on a count by `enumerate` was tried and not proved
        let mut pieces = pieces(t, self.mark);
        for _ in 0..self.most {
            let Some(piece) = pieces.next() else {
                return Ok(());
            };
            if !self.word.is(piece) {
                return Err(self.wrong);
            }
        }
        match pieces.next() {
            None => Ok(()),
            Some(_) => Err(self.too_many),
        }
    }
}

// Whether a word is `-` or methods.
pub fn check_methods(word: &[u8]) -> Result<(), Problem>
    ensures { Checks result (methods_of word.now) (methods_in word.now) }
{
    match after(word, b"-") {
        None => METHODS.check(word),
        Some([]) => Ok(()),
        Some(_) => Err(Problem::Methods),
    }
}

// Whether a word is `/` or the parts of a path, each after a `/`.
pub fn check_path(word: &[u8]) -> Result<(), Problem>
    ensures { Checks result (parts_of word.now) (parts_in word.now) }
{
    match after(word, b"/") {
        None => Err(Problem::Path),
        Some([]) => Ok(()),
        Some(rest) => PARTS.check(rest),
    }
}
