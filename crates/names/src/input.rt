//! Standard input: its lines, and the queues in which they wait for the clients.
use crate::request::client_of;
use crossbeam_channel::{Receiver, Sender, bounded};
use std::alloc::{AllocError, Global};
use std::io::{self, BufRead, BufReader, Read};
use std::sync::Wait;

/// So many bytes a line has at most, without its end.
pub(crate) const LONGEST_LINE: usize = 255;

// So many clients there are, numbered from 0.
const CLIENTS: usize = 8;

// The client that is told of a line that names none.
const ANY_CLIENT: usize = 0;

// So many lines wait for a client at most: then whoever has one more waits.
const LONGEST_QUEUE: usize = 64;

/// A line of the input.
#[derive(Drop)]
pub(crate) struct Line {
    /// Counted from 1.
    pub(crate) number: u64,
    /// Without the end; cut off after the byte that is one too many.
    pub(crate) bytes: Vec<u8>,
}

/// The ends of all queues at which lines are put, and None after the last line.
#[derive(Clone, Drop)]
pub(crate) struct Queues {
    senders: Vec<Sender<Option<Line>>>,
}

impl Queues {
    /// A queue for each client, and the ends at which the clients take.
    pub(crate) fn open(alloc: Global) -> Result<(Queues, Vec<Receiver<Option<Line>>>), AllocError> {
        let (mut senders, mut receivers) = (Vec::new(alloc), Vec::new(alloc));
        for _ in 0..CLIENTS {
            let (sender, receiver) = bounded(alloc, LONGEST_QUEUE)?;
            senders.push(sender)?;
            receivers.push(receiver)?;
        }
        Ok((Queues { senders }, receivers))
    }

    /// Puts each line of standard input into the queue of the client that it names, as it comes, and after the last one
    /// ends all queues. It stops early where nobody takes from a queue.
    ///
    /// # Errors
    ///
    /// Where standard input cannot be read, or there is no memory for a line. The queues are ended too.
    pub(crate) fn fill<R: AllocGlobal + Input + Wait>(&self, rt: &R) -> io::Result<()> {
        let read = self.put_lines(rt);
        self.end(rt);
        read
    }

    fn put_lines<R: AllocGlobal + Input + Wait>(&self, rt: &R) -> io::Result<()> {
        let alloc = rt.alloc();
        let mut input = BufReader::new(alloc, rt.reader())?;
        for number in 1..u64::MAX {
            let mut bytes = Vec::new(alloc);
            let mut start = input.by_ref().take(LONGEST_LINE as u64 + 1);
            if start.read_until(b'\n', &mut bytes)? == 0 {
                break;
            }
            if bytes.pop_if(|byte| *byte == b'\n').is_none() {
                input.skip_until(b'\n')?;
            }
            let queue = self.senders.get(client_of(&bytes).unwrap_or(ANY_CLIENT));
            let line = Some(Line { number, bytes });
            if queue.is_none_or(|queue| queue.send(rt, line).is_err()) {
                break;
            }
        }
        Ok(())
    }

    /// Ends all queues.
    pub(crate) fn end<R: Wait>(&self, rt: &R) {
        for sender in &self.senders {
            // A client that takes no more has ended already.
            let _ = sender.send(rt, None);
        }
    }
}
