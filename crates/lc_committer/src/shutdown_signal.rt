//! How services are told to end.
use std::rt::Clock;
use std::sync::{Condvar, CondvarTimeouts, Mutex, Wait};
use std::time::Duration;

/// What another thread ends services with: each that waits on it ends after one more round. It takes no memory. This
/// project's own.
#[derive(Drop)]
pub struct ShutdownSignal {
    is_told: Mutex<bool>,
    bell: Condvar,
}

impl ShutdownSignal {
    /// One by which nothing is ended yet.
    pub fn new() -> ShutdownSignal {
        ShutdownSignal {
            is_told: Mutex::new(false),
            bell: Condvar::new(),
        }
    }

    /// Ends each service that was given this, or will be. It does not wait until they have ended.
    pub fn tell<R: Wait>(&self, rt: &R) {
        *self.is_told.lock(rt) = true;
        self.bell.notify_all();
    }

    // Waits so long, or until the end is told; whether it is.
    pub(crate) fn wait<R: Clock + Wait>(&self, rt: &R, longest: Duration) -> bool {
        let is_told = self.is_told.lock(rt);
        let (is_told, _) = self
            .bell
            .wait_timeout_while(rt, is_told, longest, |is_told| !*is_told);
        *is_told
    }
}
