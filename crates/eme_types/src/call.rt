// Calls of the application, and what a step does.
ghost use Rattle.std.specs.Prelude.{◌≡◌, IfOk};

use crate::items::{Bytes, Copies, Items};
use crate::kid::StatusList;
use crate::media::InitData;
use std::alloc::AllocError;

/// Why a promise is rejected.
#[derive(Clone, Copy, Debug, PartialEq, Eq)]
pub enum DomError {
    /// `InvalidStateError`
    InvalidState,
    /// `TypeError`
    TypeFault,
    /// `NotSupportedError`
    NotSupported,
    /// `QuotaExceededError`
    Quota,
    /// No session was created under the label.
    UnknownLabel,
}

/// How a promise was settled.
#[derive(Drop)]
pub enum Settled {
    Resolved,
    /// With the value false.
    ResolvedFalse,
    /// With the text of a configuration.
    ResolvedConfig(Bytes),
    Rejected(DomError),
}

/// A call of the application. A label names a session.
#[derive(Drop)]
pub enum AppCall {
    /// `requestMediaKeySystemAccess`: the key system's name, and a JSON list of configurations.
    Access {
        name: Bytes,
        list: Bytes,
    },
    /// `createSession`
    Create {
        label: Bytes,
        kind: Bytes,
    },
    /// `generateRequest`
    Request {
        label: Bytes,
        kind: Bytes,
        init: Bytes,
    },
    /// `update`
    Update {
        label: Bytes,
        response: Bytes,
    },
    /// `close`
    Close {
        label: Bytes,
    },
    /// `remove`
    Remove {
        label: Bytes,
    },
    /// `setServerCertificate`
    Certificate {
        cert: Bytes,
    },
}

/// An event that is fired at the application.
#[derive(Drop)]
pub enum Event {
    /// `message` of a session with its id.
    Message { session: u32, id: u32, text: Bytes },
    /// `keystatuseschange`
    KeyStatuses { session: u32 },
    /// `waitingforkey`
    WaitingForKey { track: u32 },
    /// `encrypted`
    Encrypted { init: InitData },
}

/// Why a session is closed (Encrypted Media Extensions, MediaKeySessionClosedReason).
#[derive(Clone, Copy, Debug, PartialEq, Eq)]
pub enum Reason {
    /// `closed-by-application`: after a `close`.
    ClosedByApplication,
    /// `resource-evicted`: the CDM ended the session.
    ResourceEvicted,
}

/// What a step did that the application can see.
#[derive(Drop)]
pub enum Effect {
    /// The reported statuses of a session were replaced.
    Statuses { session: u32, list: StatusList },
    /// The `closed` promise of a session was settled.
    Closed { session: u32, reason: Reason },
    Promise { promise: u64, how: Settled },
    Fired { event: Event },
}

/// The effects of one step, in order of happening.
pub type Effects = Items<Effect>;

impl Copies for Settled {
    fn copy(&self) -> Result<Settled, AllocError> {
        match self {
            Settled::Resolved => Ok(Settled::Resolved),
            Settled::ResolvedFalse => Ok(Settled::ResolvedFalse),
            Settled::ResolvedConfig(text) => Ok(Settled::ResolvedConfig(text.copy()?)),
            Settled::Rejected(error) => Ok(Settled::Rejected(*error)),
        }
    }
}

impl Copies for AppCall {
    fn copy(&self) -> Result<AppCall, AllocError> {
        match self {
            AppCall::Access { name, list } => Ok(AppCall::Access {
                name: name.copy()?,
                list: list.copy()?,
            }),
            AppCall::Create { label, kind } => Ok(AppCall::Create {
                label: label.copy()?,
                kind: kind.copy()?,
            }),
            AppCall::Request { label, kind, init } => Ok(AppCall::Request {
                label: label.copy()?,
                kind: kind.copy()?,
                init: init.copy()?,
            }),
            AppCall::Update { label, response } => Ok(AppCall::Update {
                label: label.copy()?,
                response: response.copy()?,
            }),
            AppCall::Close { label } => Ok(AppCall::Close {
                label: label.copy()?,
            }),
            AppCall::Remove { label } => Ok(AppCall::Remove {
                label: label.copy()?,
            }),
            AppCall::Certificate { cert } => Ok(AppCall::Certificate { cert: cert.copy()? }),
        }
    }
}

impl Copies for Event {
    fn copy(&self) -> Result<Event, AllocError> {
        match self {
            Event::Message { session, id, text } => Ok(Event::Message {
                session: *session,
                id: *id,
                text: text.copy()?,
            }),
            Event::KeyStatuses { session } => Ok(Event::KeyStatuses { session: *session }),
            Event::WaitingForKey { track } => Ok(Event::WaitingForKey { track: *track }),
            Event::Encrypted { init } => Ok(Event::Encrypted { init: init.copy()? }),
        }
    }
}

impl Copies for Effect {
    fn copy(&self) -> Result<Effect, AllocError> {
        match self {
            Effect::Statuses { session, list } => Ok(Effect::Statuses {
                session: *session,
                list: list.copy()?,
            }),
            Effect::Closed { session, reason } => Ok(Effect::Closed {
                session: *session,
                reason: *reason,
            }),
            Effect::Promise { promise, how } => Ok(Effect::Promise {
                promise: *promise,
                how: how.copy()?,
            }),
            Effect::Fired { event } => Ok(Effect::Fired {
                event: event.copy()?,
            }),
        }
    }
}
