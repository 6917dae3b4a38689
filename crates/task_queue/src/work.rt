// What is queued: the parallel parts of the algorithms, and the tasks that they queue.
use eme_types::{Bytes, DomError, Event, InitKind, Kids};

/// A parallel part of a session algorithm. `promise` is the promise that it answers.
#[derive(Drop)]
pub enum Job {
    /// Of `generateRequest`.
    Request {
        session: u32,
        kind: InitKind,
        init: Bytes,
        promise: u64,
    },
    /// Of `update`.
    Update {
        session: u32,
        response: Bytes,
        promise: u64,
    },
    /// Of `close`.
    Close {
        session: u32,
        promise: u64,
    },
    /// Of `remove`.
    Remove {
        session: u32,
        promise: u64,
    },
}

/// A queued task.
#[derive(Drop)]
pub enum Task {
    Reject {
        promise: u64,
        error: DomError,
    },
    RequestDone {
        session: u32,
        kids: Kids,
        promise: u64,
    },
    /// `changed` tells whether the key table or its statuses changed.
    UpdateDone {
        session: u32,
        changed: bool,
        promise: u64,
    },
    CloseDone {
        session: u32,
        promise: u64,
    },
    RemoveDone {
        session: u32,
        promise: u64,
    },
    /// The session was evicted.
    Evicted {
        session: u32,
    },
    /// The statuses of a session may have changed by the time.
    Report {
        session: u32,
    },
    Fire {
        event: Event,
    },
    /// The tracks that wait for a key are looked at again.
    Resume,
}
