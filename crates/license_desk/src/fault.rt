// Refusals.
use init_data::InitFault;
use std::alloc::AllocError;

/// Why a line of a table is refused.
#[derive(Clone, Copy, Debug, PartialEq, Eq)]
pub enum DeskKind {
    /// Line 1 is not `DESK 1`.
    Header,
    /// The line is not five words, one space between two, of which the first is `key`.
    Line,
    /// The key id is not 1 to 512 bytes in hexadecimal.
    Kid,
    /// The key is not 16 bytes in hexadecimal.
    Key,
    /// The start is no number up to 2^53, or the expiration is neither such a number nor `-`.
    Number,
    /// An earlier line has the key id.
    DuplicateKid,
}

/// Why bytes are no table of keys.
#[derive(Clone, Copy, Debug, PartialEq, Eq)]
pub enum DeskFault {
    /// The first line with a broken rule, counted from 1, and its first broken rule. A line past the greatest number of 32 bits
    /// has that number.
    Refused { line: u32, kind: DeskKind },
    OutOfMemory,
}

/// Why a line was not read.
#[derive(Clone, Copy, Debug, PartialEq, Eq)]
pub enum LineFault {
    Broken(DeskKind),
    OutOfMemory,
}

/// Why a request gets no licence.
#[derive(Clone, Copy, Debug, PartialEq, Eq)]
pub enum AnswerFault {
    /// The request is no initialization data of the type `keyids`.
    Invalid,
    /// It names no key id.
    NoKids,
    /// It has a member `type` that is not `temporary`.
    Kind,
    /// No key that it names is in the table and unexpired.
    NoKeys,
    /// There are more than 256 such keys.
    TooMany,
    /// The text of the licence has more than 65,536 bytes.
    TooLong,
    OutOfMemory,
}

impl LineFault {
    ghost use Rattle.std.specs.Prelude.{◌≡◌};
    ghost use Rattle.license_desk.specs.Table.{fault_at};

    /// The fault at the line of this number.
    pub fn at(self, line: u32) -> DeskFault
        ensures { result ≡ fault_at line self }
    {
        match self {
            LineFault::Broken(kind) => DeskFault::Refused { line, kind },
            LineFault::OutOfMemory => DeskFault::OutOfMemory,
        }
    }
}

impl From<AllocError> for LineFault {
    ghost use Rattle.std.specs.Prelude.{◌≡◌};
    ghost use Rattle.license_desk.specs.declared.fault.LineFault.TheVariants.{OutOfMemory};

    ghost from_gives = { λ _ e. e ≡ OutOfMemory };

    fn from(_: AllocError) -> LineFault {
        LineFault::OutOfMemory
    }
}

impl From<AllocError> for AnswerFault {
    ghost use Rattle.std.specs.Prelude.{◌≡◌};
    ghost use Rattle.license_desk.specs.declared.fault.AnswerFault.TheVariants.{OutOfMemory};

    ghost from_gives = { λ _ e. e ≡ OutOfMemory };

    fn from(_: AllocError) -> AnswerFault {
        AnswerFault::OutOfMemory
    }
}

impl From<InitFault> for AnswerFault {
    ghost use Rattle.std.specs.Prelude.{◌≡◌};
    ghost use Rattle.license_desk.specs.Answer.{refusal_of};

    ghost from_gives = { λ fault e. e ≡ refusal_of fault };

    fn from(fault: InitFault) -> AnswerFault {
        match fault {
            InitFault::Invalid => AnswerFault::Invalid,
            InitFault::NoKids => AnswerFault::NoKids,
            InitFault::OutOfMemory => AnswerFault::OutOfMemory,
        }
    }
}
