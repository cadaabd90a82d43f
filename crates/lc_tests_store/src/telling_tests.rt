//! What is told of a recovery while it goes on.
use crate::events::ONE_NODE;
use crate::expect::equal;
use lc_disk::{Fuse, When};
use lc_fixture::{CLOSED, hello, log_area, segment_area};
use lc_look::{Teller, recover_told};
use std::cell::Cell;
use std::test::*;

// Notes what it is told: the last number of steps, how often that was not the one after the last, and how often it was
// over.
#[derive(Drop)]
struct Noted {
    steps: Cell<u64>,
    leaps: Cell<u64>,
    ends: Cell<u64>,
}

fn count_one(counted: &Cell<u64>) {
    counted.set(counted.get().wrapping_add(1));
}

impl Teller for Noted {
    fn stepped(&self, steps: u64) {
        if self.steps.get().wrapping_add(1) != steps || self.ends.get() > 0 {
            count_one(&self.leaps);
        }
        self.steps.set(steps);
    }

    fn finished(&self) {
        count_one(&self.ends);
    }

    fn left(&self, _commits: u64, _transactions: u64) {
        count_one(&self.leaps);
    }
}

// The call of the segment that fails, if it is not 0; the steps that are told, and the status. The log and the segment
// are synced and then read, in four steps, and merged in one. The page takes six, and the log is reset in two, of which
// the last is not told as a step.
static TOLD: [(u8, u64, u8); 4] = [(0, 12, 0), (1, 1, 3), (5, 7, 3), (8, 10, 3)];

#[test]
fn each_step_of_a_recovery_is_told(rt: HostRuntime) -> Result<(), Fail> {
    for (fails, steps, status) in &TOLD {
        let records = log_area(rt.alloc(), &hello(0, 1, 1, 3))?;
        let pages = segment_area(rt.alloc(), &[CLOSED; 2])?;
        let areas = vec![in rt.alloc();
            Fuse::new(records, When::At(0)),
            Fuse::new(pages, When::At(u64::from(*fails))),
        ]?;
        let noted = Noted {
            steps: Cell::new(0),
            leaps: Cell::new(0),
            ends: Cell::new(0),
        };
        let mut text = Vec::new(rt.alloc());
        let ended = recover_told(rt.alloc(), ONE_NODE, areas, &noted, &mut text)?;
        let told = (noted.steps.get(), noted.leaps.get(), noted.ends.get());
        equal(&rt, fails, &(ended, told), &(*status, (*steps, 0, 1)));
    }
    Ok(())
}
