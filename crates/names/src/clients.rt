//! All clients side by side on one node, each served by a thread of its own.
ghost use Rattle.lc_stage.specs.Seats.{commit_view, IsSeatOf, IsIdle};

use crate::fault::Fault;
use crate::input::{Line, Queues};
use crate::request::{Request, client_of, request_of};
use crossbeam_channel::Receiver;
use lc_committer::Committer;
use lc_disk::Area;
use lc_names::{Ask, NameAnswer, SEGMENT};
use lc_node::{Commit, Mode, Node, NodeFault};
use lc_stage::CommitSeat;
use std::alloc::AllocError;
use std::io;
use std::sync::{Mutex, Wait};
use std::thread::{self, JoinHandle, Threads};

// The bytes of the table: 16 pages of 256.
const TABLE: u32 = 16 * 256;

// A client: its number, what its thread commits with, and what came of all clients: whether each line was understood
// that was replied to, or what failed last. Who prints has that.
#[derive(Drop)]
struct Client<'a, R, D: Area + Drop> {
    rt: &'a R,
    number: usize,
    committer: Committer<'a, D>,
    outcome: &'a Mutex<Result<bool, Fault>>,
}

/// Serves the clients up to the end of standard input, each by a thread, and then empties the log; whether each line
/// was understood.
///
/// # Errors
///
/// Where a device, standard input or standard output fails, or there is no memory or no thread. All clients have ended
/// then; standard input may still be waited for.
pub(crate) fn serve<R: AllocGlobal + Print + Threads + Wait + Sync, D: Area + Drop + Send>(
    rt: &R,
    node: &Node<D>,
    seat: CommitSeat,
    queues: &Queues,
    receivers: Vec<Receiver<Option<Line>>>,
    reader: JoinHandle<io::Result<()>>,
) -> Result<bool, Fault>
    requires own { IsSeatOf node.now.stage seat }
    requires idle { IsIdle (commit_view seat) }
{
    let outcome = Mutex::new(Ok(true));
    let mut first = Committer::new(node, seat);
    thread::scope(thread::scope_env(), rt, |scope| {
        let mut are_started = true;
        for (number, queue) in receivers.into_iter().enumerate() {
            let client = Client {
                rt,
                number,
                committer: first.split(),
                outcome: &outcome,
            };
            are_started &= scope.spawn(move || client.serve(queue, queues)).is_ok();
        }
        if !are_started {
            *outcome.lock(rt) = Err(Fault::NoMemory(AllocError));
            queues.end(rt);
        }
    });
    let are_understood = outcome.into_inner()?;
    reader.join(rt).map_err(Fault::Input)?;
    node.truncate(rt, rt.alloc()).map_err(|_| Fault::Device)?;
    Ok(are_understood)
}

impl<R: AllocGlobal + Print + Wait, D: Area + Drop> Client<'_, R, D> {
    // Replies to its lines in their order, up to the end of its queue. Where that fails all are to end.
    fn serve(self, queue: Receiver<Option<Line>>, queues: &Queues) {
        let (rt, outcome) = (self.rt, self.outcome);
        if let Err(fault) = self.reply_to_all(queue) {
            *outcome.lock(rt) = Err(fault);
            queues.end(rt);
        }
    }

    fn reply_to_all(mut self, queue: Receiver<Option<Line>>) -> Result<(), Fault> {
        for line in queue.into_iter(self.rt).map_while(|line| line) {
            self.reply(line)?;
        }
        Ok(())
    }

    // Does what a line asks, and prints the reply when it is durable.
    fn reply(&mut self, line: Line) -> Result<(), Fault> {
        let Line { number, bytes } = line;
        let mut reply = String::new(self.rt.alloc());
        let request = request_of(&bytes);
        match (request, client_of(&bytes)) {
            (Some(request), _) => self.carry_out(request, &mut reply)?,
            (None, Some(client)) => writeln!(reply, "{client} line {number}: not understood")?,
            (None, None) => writeln!(reply, "line {number}: not understood")?,
        }
        let mut outcome = self.outcome.lock(self.rt);
        if let Ok(are_understood) = &mut *outcome {
            *are_understood &= request.is_some();
        }
        self.rt.print(reply.as_str()).map_err(Fault::Output)
    }

    // Carries out a request, waits until all that was seen or changed is durable, and writes the reply, each line with
    // the number of the client. What is no UTF-8 is written as U+FFFD.
    fn carry_out(&mut self, request: Request<'_>, reply: &mut String) -> Result<(), Fault> {
        let Client { rt, number, .. } = *self;
        let Request { verb, command } = request;
        let mut ask = Ask {
            len: TABLE,
            command,
            answer: None,
        };
        let mut committed = self.committer.commit(rt, &[SEGMENT], &mut ask, Mode::Flush);
        if let Ok(Commit::Empty) = committed {
            // What it saw another client may have changed a moment ago.
            committed = self.committer.node().flush(rt).map(|_| Commit::Empty);
        }
        match (committed, ask.answer) {
            (Err(NodeFault::DeviceFault | NodeFault::Halted), _) => return Err(Fault::Device),
            (Err(fault), _) => writeln!(reply, "{number} refused: {fault}")?,
            (Ok(_), Some(Err(fault))) => writeln!(reply, "{number} refused {fault:?}")?,
            (Ok(_), Some(Ok(NameAnswer::Done))) => writeln!(reply, "{number} {verb}d")?,
            (Ok(_), Some(Ok(NameAnswer::Attributes(text)))) => {
                let text = String::from_utf8_lossy(rt.alloc(), &text)?;
                writeln!(reply, "{number} attributes {text}")?
            }
            (Ok(_), Some(Ok(NameAnswer::Names(names)))) => {
                for name in &names {
                    let text = String::from_utf8_lossy(rt.alloc(), name)?;
                    writeln!(reply, "{number} name {text}")?;
                }
                writeln!(reply, "{number} listed {}", names.len())?
            }
            (Ok(_), None) => {}
        }
        Ok(())
    }
}
