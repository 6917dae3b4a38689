//! The door in front of the tickets. Who finds it shut looks at it for a while and then sleeps, so that a ticket is drawn only when its turn is
//! near, and who opens samples has the processors. It says nothing of what the lock keeps: that is the tickets' matter.
use std::hint;
use std::sync::Wait;
use std::sync::atomic::{AtomicU64, Ordering};

const OPEN: u64 = 0;

const SHUT: u64 = 1;

// Shut, and somebody may sleep in front of it.
const CROWDED: u64 = 2;

/// How often a caller looks at a door that is shut before it sleeps: longer than a call under the lock takes.
const LOOKS: u32 = 100;

/// One caller at a time passes.
#[derive(Drop)]
pub(crate) struct Door {
    word: AtomicU64,
}

impl Door {
    pub(crate) fn new() -> Door {
        Door {
            word: AtomicU64::new(OPEN),
        }
    }

    // Whether the door was open, and is shut now.
    fn shuts(&self) -> bool {
        self.word.load(Ordering::SeqCst) == OPEN
            && self
                .word
                .compare_exchange(OPEN, SHUT, Ordering::SeqCst, Ordering::SeqCst)
                .is_ok()
    }

    /// Waits until the door is open, and shuts it.
    pub(crate) fn enter<R: Wait>(&self, rt: &R) {
        for _ in 0..LOOKS {
            if self.shuts() {
                return;
            }
            hint::spin_loop();
        }
        for _ in rt.forever() {
            if self.word.swap(CROWDED, Ordering::SeqCst) == OPEN {
                return;
            }
            self.word.park(rt, 2);
        }
    }

    /// Opens the door, and wakes one who sleeps in front of it.
    pub(crate) fn leave(&self) {
        if self.word.swap(OPEN, Ordering::SeqCst) == CROWDED {
            self.word.wake_one();
        }
    }
}
