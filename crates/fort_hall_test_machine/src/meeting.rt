//! A gate at which two tasks meet.
use fort_port::{Gate, Point};
use std::hint;
use std::sync::atomic::{AtomicBool, Ordering};

// How often a task looks for the other one at most.
const LOOKS: u32 = 200_000_000;

/// A gate that holds the first leg of each of the tasks 1 and 2, below a number of open attempts,
/// until the other one has begun.
#[derive(Drop)]
pub struct Meeting {
    depth: u32,
    first: AtomicBool,
    second: AtomicBool,
    missed: AtomicBool,
}

impl Meeting {
    pub fn new(depth: u32) -> Meeting {
        Meeting {
            depth,
            first: AtomicBool::new(false),
            second: AtomicBool::new(false),
            missed: AtomicBool::new(false),
        }
    }

    /// Whether both tasks have begun, and each saw the other one.
    pub fn have_met(&self) -> bool {
        self.first.load(Ordering::SeqCst)
            && self.second.load(Ordering::SeqCst)
            && !self.missed.load(Ordering::SeqCst)
    }

    // A task has begun, and waits for the other one.
    fn waits(&self, own: &AtomicBool, other: &AtomicBool) {
        own.store(true, Ordering::SeqCst);
        for _look in 0..LOOKS {
            if other.load(Ordering::SeqCst) {
                return;
            }
            hint::spin_loop();
        }
        self.missed.store(true, Ordering::SeqCst);
    }
}

impl Gate for Meeting {
    fn at(&self, point: Point) {
        if point.depth == self.depth {
            match point.child {
                1 => self.waits(&self.first, &self.second),
                2 => self.waits(&self.second, &self.first),
                _ => {}
            }
        }
    }
}
