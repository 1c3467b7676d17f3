// Why a message is refused, and where: the faults by name, with the numbers and the statuses of the rules.
ghost use Rattle.std.specs.Prelude.{◌≡◌};
ghost use Rattle.message.specs.Faults.{number_of, status_of, ends_client, flaw};

// The faults, each with its number in the rules.
#[derive(Clone, Copy)]
pub enum Fault {
    // the first line is not of its form
    FirstLine = 1,
    // a head, a name or the canonical head is too long, or the fields are too many
    TooLong = 2,
    // a field line is not of its form
    FieldLine = 3,
    // no host, a second one, or one that names no server
    Host = 4,
    // a length or an encoding beside another, or with a bad value
    Framing = 5,
    // a body said where the method has none, or none said where it has one
    BodyUnfit = 6,
    // the body is too long
    BodyTooLong = 7,
    // a chunk is not of its form
    Chunk = 8,
    // a byte or code that a path may not have
    PathByte = 9,
    // a part that is empty or ends with a dot
    PathPart = 10,
    // a byte that a query may not have
    QueryByte = 11,
    // the server's rules say no
    Denied = 12,
    // as many owners wait on the connection as may
    Busy = 13,
    // an unreadable response, a byte that nobody waits for, or a connection that is down
    Down = 14,
}

impl Fault {
    // Its number in the rules, 1 to 14.
    pub fn number(self) -> u8
        ensures { result ≡ number_of self }
    {
        self as u8
    }

    // It, shown by the byte at a place.
    pub fn at(self, place: usize) -> Flaw
        ensures { result ≡ flaw self place }
    {
        Flaw { fault: self, place }
    }

    // The status of the refusal.
    pub fn status(self) -> u16
        ensures { result ≡ status_of self }
    {
        match self {
            Fault::TooLong => 431,
            Fault::Host => 421,
            Fault::BodyUnfit => 411,
            Fault::BodyTooLong => 413,
            Fault::Denied => 403,
            Fault::Busy => 503,
            Fault::Down => 502,
            _ => 400,
        }
    }

    // Whether the client's connection ends with the refusal: it is not known where the next request would begin.
    pub fn ends_client(self) -> bool
        ensures { result ≡ ends_client self }
    {
        self.number() <= 8
    }
}

// A fault, and the place of the byte that shows it, counted from the message's first byte.
#[derive(Clone, Copy)]
pub struct Flaw {
    pub fault: Fault,
    pub place: usize,
}

// The memory lent is not of the size that is wanted, or a state does not belong to it.
#[derive(Clone, Copy)]
pub struct Unfit;
