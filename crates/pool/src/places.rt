// The pool: 64 places, each empty or holding one message.
use rules::message::Message;

pub const MOST_PLACES: usize = 64;

#[derive(Clone, Copy)]
pub struct Place {
    pub waiting: Option<Message>,
}
