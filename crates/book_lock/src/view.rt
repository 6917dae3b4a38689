//! What a seat of the table knows. No value of these types is made: clauses alone speak of them.
use std::collections::LinkedList;

/// Where a seat is between two turns.
pub enum Phase {
    Idle,
    Waiting,
    Turn,
    Counted,
}

/// What one seat knows.
pub struct View<E> {
    pub phase: Phase,
    /// The ticket that was drawn last, as a number without a bound: the words show its remainder.
    pub ticket: u64,
    /// The list as the seat took it, in its turn.
    pub taken: LinkedList<E>,
    pub seen: LinkedList<E>,
    /// The shorter list of the last join, until the next load tells that it begins the longer one.
    pub told: LinkedList<E>,
    /// The places that the seat owns: those of its own entries, which count from 1, and maybe place 0.
    pub own: LinkedList<u64>,
    pub parts: u64,
    pub fixed: LinkedList<u64>,
}
