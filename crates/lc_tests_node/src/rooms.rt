//! Threads that commit side by side, each with a committer of its own.
use crate::expect::{equal, holds};
use crate::stores::{LEAST_WORDS, opened_on_zeros};
use lc_committer::Committer;
use lc_disk::{Area, MemArea};
use lc_node::{Commit, Confirmed, Mode, Put};
use lc_node_fixture::WORDS;
use lc_record::View;
use std::alloc::{AllocError, Global};
use std::sync::Wait;
use std::test::*;
use std::thread::map_vec;

const THREADS: u8 = 4;

// Few enough for one round of a large log.
const COMMITS: u8 = 50;

// A thread with its committer.
#[derive(Drop)]
struct Worker<'a, D: Area + Drop> {
    number: u8,
    committer: Committer<'a, D>,
}

// What a thread says of its commits.
#[derive(Clone, Copy)]
struct Said {
    is_done: bool,
    // The offset and the byte of its last record, where the log still has it.
    last: Option<(u32, u8)>,
}

impl<D: Area + Drop> Worker<'_, D> {
    // Commits lazily, at an offset of its own, and waits until all of it is stable; whether each was carried out.
    fn commit_all<R: Wait + AllocGlobal>(&mut self, rt: &R) -> bool {
        for round in 0..COMMITS {
            let mut work = Put {
                segment: 1,
                offset: u32::from(self.number),
                bytes: &[round],
            };
            let done = self.committer.commit(rt, &[1], &mut work, Mode::Lazy);
            if !matches!(done, Ok(Commit::Lazy)) {
                return false;
            }
        }
        matches!(self.committer.settle(rt), Ok(Some(_)))
    }

    // The offset and the byte of its last record, as the log has them.
    fn last_record<R: Wait + AllocGlobal>(&mut self, rt: &R) -> Option<(u32, u8)> {
        let Ok(Some(receipt)) = self.committer.settle(rt) else {
            return None;
        };
        let mut words = Vec::new(rt.alloc());
        let Ok(Confirmed::Here(_)) = self.committer.read_record(rt, receipt, &mut words) else {
            return None;
        };
        let view = View::at(&words, 0)?;
        let range = view.range(0)?;
        Some((range.offset, view.byte(0, 0)?))
    }
}

// The threads, each with a committer that was split off.
fn workers<'a, D: Area + Drop>(
    alloc: Global,
    first: Committer<'a, D>,
) -> Result<Vec<Worker<'a, D>>, AllocError> {
    let mut first = first;
    let mut workers = Vec::new(alloc);
    for number in 0..THREADS {
        let committer = first.split();
        workers.push(Worker { number, committer })?;
    }
    Ok(workers)
}

// A small log is full again and again; a large one has each thread's last record at the end.
#[test]
fn each_thread_finds_room_and_its_own_record(rt: HostRuntime) -> Result<(), Fail> {
    let alloc = rt.alloc();
    for words in [WORDS, LEAST_WORDS] {
        let (node, seat) = opened_on_zeros(alloc, words)?;
        let said = map_vec(
            &rt,
            workers(alloc, Committer::new(&node, seat))?,
            &|worker: Worker<MemArea>| {
                let mut worker = worker;
                Said {
                    is_done: worker.commit_all(&rt),
                    last: worker.last_record(&rt),
                }
            },
        )?;
        let Ok(copy) = node.snapshot(&rt, alloc, 1) else {
            return Err(Fail::from("there is a copy"));
        };
        equal(&rt, &words, &said.len(), &usize::from(THREADS));
        for (number, said) in (0..THREADS).zip(said.iter()) {
            let row = format!(in alloc; "thread {number} with a log of {words} words")?;
            let last = copy.bytes.get(usize::from(number));
            holds(&rt, &row, said.is_done);
            equal(&rt, &row, &last, &Some(&(COMMITS - 1)));
            if words == WORDS {
                equal(
                    &rt,
                    &row,
                    &said.last,
                    &Some((u32::from(number), COMMITS - 1)),
                );
            }
        }
    }
    Ok(())
}
