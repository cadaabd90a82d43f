//! Messages that were not sent.

/// Why a message was not sent. It comes back as it was.
#[derive(Debug, Drop, PartialEq, Eq)]
pub enum Refused<T> {
    /// `ROOM` messages were on their way.
    Full(T),
    /// The receiving end is gone. No clause says when this is the answer.
    Gone(T),
}
