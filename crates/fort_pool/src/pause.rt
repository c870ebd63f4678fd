//! What an idle worker does between two turns.
use crossbeam_utils::Backoff;
use std::sync::Wait;
use std::thread::Parker;
use std::time::Duration;

// The longest sleep. Nothing wakes a worker sooner, so work that comes meanwhile waits for so long.
const NAP_MICROS: u64 = 200;

/// Spins for a moment at first, then yields, and then sleeps for a bounded time. It needs no one to
/// wake it.
#[derive(Drop)]
pub struct Pause {
    backoff: Backoff,
    parker: Parker,
}

impl Pause {
    pub fn new() -> Pause {
        Pause {
            backoff: Backoff::new(),
            parker: Parker::new(),
        }
    }

    /// There was something to do: the next wait begins anew.
    pub fn reset(&self) {
        self.backoff.reset();
    }

    pub fn wait<R: Wait>(&self, rt: &R) {
        if self.backoff.is_completed() {
            self.parker
                .park_timeout(rt, Duration::from_micros(NAP_MICROS));
        } else {
            self.backoff.snooze();
        }
    }
}
