// What can be wrong with a statement: one name for each thing, and a sentence that says what would be right.
ghost use Rattle.std.specs.Prelude.{◌≡◌};
ghost use Rattle.script.specs.declared.problem.Problem.TheVariants.{Memory};

use std::alloc::{AllocError, AllocFailed};
use thiserror::Error;

#[derive(Clone, Copy, PartialEq, Eq, Debug, Error)]
pub enum Problem {
    #[error("a statement begins with server, allow, deny, from client or from server, and a space")]
    UnknownStatement,
    #[error("a server's name has 1 to 253 letters, digits, hyphens and dots")]
    ServerName,
    #[error("no two servers have names that are alike but for case")]
    ServerTwice,
    #[error("a script has at most 8 servers")]
    TooManyServers,
    #[error("a rule comes after the server that it is for")]
    RuleWithoutServer,
    #[error("a rule is allow or deny, methods and a path, set apart by one space")]
    RuleWords,
    #[error("methods are - or words of 1 to 16 capitals, separated by commas")]
    Methods,
    #[error("a rule has at most 8 methods")]
    TooManyMethods,
    #[error("a path is / or parts that each follow a /, of digits, letters in lower case and - _ ~ . ! $ & ' ( ) * + , = : @")]
    Path,
    #[error("a path has at most 16 parts")]
    TooManyParts,
    #[error("a server has at most 64 rules")]
    TooManyRules,
    #[error("servers and rules come before the first event")]
    SettingAfterEvent,
    #[error("an event is a sender, its number and its bytes, set apart by one space")]
    EventWords,
    #[error("a client's number is 1 to 16, without a zero in front")]
    ClientNumber,
    #[error("a server's number is 1 to 8, without a zero in front")]
    ServerNumber,
    #[error("an event's server is one that the script declares")]
    UnknownServer,
    #[error("bytes are an even number of hexadecimal digits, at least 2, or text in quotes")]
    Hexadecimal,
    #[error("quoted text is bytes 32 to 126 and the escapes \\r \\n \\t \\\\ \\\" \\xHH, and the closing quote ends the line")]
    QuotedText,
    #[error("there is not enough memory for this line")]
    Memory,
}

// By hand, as the next: contracts name the problem that a want of memory becomes, and a derive says nothing of it.
impl From<AllocError> for Problem {
    ghost from_gives = { λ _ r. r ≡ Memory };

    fn from(_e: AllocError) -> Problem {
        Problem::Memory
    }
}

impl<T: Drop> From<AllocFailed<T>> for Problem {
    ghost from_gives = { λ _ r. r ≡ Memory };

    fn from(_e: AllocFailed<T>) -> Problem {
        Problem::Memory
    }
}
