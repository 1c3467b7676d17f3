// A request whose fields are held as they were sent: it comes into canonical form as it is written.
use crate::canonical::Request;
use message::sent_field::SentField;

pub type SentRequest<'f, 'a> = Request<'f, 'a, SentField<'a>>;
