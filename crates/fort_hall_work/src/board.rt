//! Words beside the books, which workers read without a lock.
use std::sync::atomic::{AtomicBool, AtomicU32, AtomicU64, Ordering};

/// Whether the run ends, whether a look may find something, and how many workers look. Nothing that
/// is proved rests on it.
#[derive(Drop)]
pub struct Board {
    over: AtomicBool,
    // It rises where a book may have come to have a task that no deck has.
    offers: AtomicU64,
    looking: AtomicU32,
}

impl Board {
    pub fn new() -> Board {
        Board {
            over: AtomicBool::new(false),
            offers: AtomicU64::new(0),
            looking: AtomicU32::new(0),
        }
    }

    /// Ends the run for all workers.
    pub fn end(&self) {
        self.over.store(true, Ordering::SeqCst);
    }

    pub fn is_over(&self) -> bool {
        self.over.load(Ordering::SeqCst)
    }

    /// A book may have a task that can be lent. It is called after the book has it.
    pub fn offer(&self) {
        let _ = self.offers.fetch_add(1, Ordering::SeqCst);
    }

    /// How often something was offered.
    pub fn offers(&self) -> u64 {
        self.offers.load(Ordering::SeqCst)
    }

    /// One worker more looks for work.
    pub fn begin_to_look(&self) {
        let _ = self.looking.fetch_add(1, Ordering::SeqCst);
    }

    /// One worker less looks for work.
    pub fn stop_looking(&self) {
        let _ = self.looking.fetch_sub(1, Ordering::SeqCst);
    }

    /// How many workers look for work.
    pub fn wanted(&self) -> u32 {
        self.looking.load(Ordering::Relaxed)
    }
}
