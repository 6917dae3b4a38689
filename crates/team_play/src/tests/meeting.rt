//! A gate at which two workers meet, with a script and a media that give them the time to, and one that keeps each worker for a time.
use decrypt_workers::{Gate, Spot};
use std::alloc::{AllocError, Global};
use std::sync::Wait;
use std::sync::atomic::{AtomicU64, Ordering};
use std::thread;
use std::time::Duration;

/// For so many turns a spot is kept.
const TURNS: u32 = 1000;

/// Keeps each spot until a spot of worker 1 and one of worker 2 stand here at the same moment, for a number of turns.
#[derive(Drop)]
pub struct Meeting {
    first: AtomicU64,
    second: AtomicU64,
    met: AtomicU64,
}

impl Meeting {
    pub fn new() -> Meeting {
        Meeting {
            first: AtomicU64::new(0),
            second: AtomicU64::new(0),
            met: AtomicU64::new(0),
        }
    }

    pub fn has_met(&self) -> bool {
        self.met.load(Ordering::SeqCst) == 1
    }
}

impl Gate for Meeting {
    fn pass<R: Wait>(&self, _rt: &R, spot: Spot) {
        let (mine, other) = if spot.worker == 1 {
            (&self.first, &self.second)
        } else {
            (&self.second, &self.first)
        };
        mine.store(1, Ordering::SeqCst);
        for _ in 0..TURNS {
            if other.load(Ordering::SeqCst) == 1 {
                self.met.store(1, Ordering::SeqCst);
            }
            if self.met.load(Ordering::SeqCst) == 1 {
                break;
            }
            thread::yield_now();
        }
        mine.store(0, Ordering::SeqCst);
    }
}

/// So long a claim is held, in milliseconds.
const HELD: u64 = 50;

/// Keeps each spot for a time in which lane 0 goes on.
#[derive(Drop)]
pub struct Delay;

impl Gate for Delay {
    fn pass<R: Wait>(&self, rt: &R, _spot: Spot) {
        AtomicU64::new(0).park_timeout(rt, 0, Duration::from_millis(HELD));
    }
}

/// The script, and 4,000 certificate lines behind it.
pub fn many_certificates(alloc: Global, script: &str) -> Result<String, AllocError> {
    let mut text = String::new(alloc);
    text.push_str(script)?;
    for _ in 0..4000u32 {
        text.push_str("0 certificate hex:00\n")?;
    }
    Ok(text)
}

/// One fragment of 4,096 samples under one key.
pub fn many_samples(alloc: Global) -> Result<String, AllocError> {
    let mut text = String::new(alloc);
    text.push_str("SMPL 1\ntrack 1\nfragment\n")?;
    for _ in 0..4096u32 {
        text.push_str(
            "sample 1 cenc 000102030405060708090a0b0c0d0e0f f0f1f2f3f4f5f6f7f8f9fafbfcfdfeff - 874d6191b620e3261bef6864990db6ce\n",
        )?;
    }
    Ok(text)
}
