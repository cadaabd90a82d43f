//! What the system may answer.
use crate::Refusal;
use lc_record::Items;

/// The answer to one event.
#[derive(Drop)]
pub enum Reply {
    /// It is done.
    Ok,
    /// The bytes that were read.
    Bytes(Items<u8>),
    /// The record has this place in the log and this many words.
    Reserved { place: u32, words: u32 },
    /// The transaction set nothing, so it is over.
    Ended,
    /// This many steps are done, and more are to come.
    Stepped(u64),
    /// The first so many records that the node reserved since the last recovery are stable.
    Acked(u64),
    /// There is nothing to do.
    Nothing,
    /// The segment is applied at the receiver up to this number.
    Applied(u64),
    /// The record waits for one before it.
    HeldBack,
    /// The record was applied, is waiting or was dropped before.
    Ignored,
    /// So many records were dropped.
    Trimmed(u64),
    /// The page is on the device under this number.
    Written(u64),
    /// The log is empty, and a new round begins.
    Reset,
    /// The store is down.
    Down,
    /// The store is up again.
    Recovered,
    /// It is refused, and nothing has changed.
    Refused(Refusal),
}
