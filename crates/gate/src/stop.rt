// Why a run ended before its script did. `explain` has other reasons, and a file's name with them.
use proxy::state::Misuse;
use request::canonical::Full;
use script::problem::Problem;
use std::alloc::AllocError;
use std::io;
use thiserror::Error;

#[derive(Debug, Drop, Error)]
pub enum Stop {
    // a line, by its number from 1 on, and what is wrong with it
    #[error("line {0}: {1}")]
    Line(u64, Problem),
    // the gate refused a call: this program is wrong
    #[error("a call of the gate was out of place: {0:?}")]
    Misuse(Misuse),
    #[error(transparent)]
    Io(#[from] io::Error),
}

// By hand, since the variant holds another error: a want of memory is told as one of input and output.
impl From<AllocError> for Stop {
    fn from(error: AllocError) -> Stop {
        Stop::Io(io::Error::from(error))
    }
}

// By hand, since what the gate refuses with is no error that is told.
impl From<Misuse> for Stop {
    fn from(misuse: Misuse) -> Stop {
        Stop::Misuse(misuse)
    }
}

// By hand, since what is written has room: a refusal always, and a response once the output has as much as it wants.
impl From<Full> for Stop {
    fn from(_full: Full) -> Stop {
        Stop::Misuse(Misuse::Room)
    }
}
