// Refusals.
use std::alloc::{AllocError, AllocFailed};
use thiserror::Error;

/// Why a line is refused.
#[derive(Clone, Copy, Debug, PartialEq, Eq)]
pub enum ScriptKind {
    /// The line is not UTF-8.
    NotUtf8,
    /// Line 1 is not `EMES 1`.
    Header,
    /// There is a line 4,097.
    TooManyLines,
    /// The line does not begin with a lane, 0 to 7.
    Lane,
    /// No verb follows the lane.
    Verb,
    /// A line other than a call is not of lane 0.
    LaneKind,
    /// A word is missing or empty, or there are too many.
    Words,
    /// The label is not 1 to 32 of the characters `a` to `z`, `0` to `9` and `_`.
    Label,
    /// An earlier line creates the label.
    DuplicateLabel,
    /// The data begins with neither `hex:` nor `text:`.
    Form,
    /// The data behind `hex:` is not pairs of hexadecimal digits.
    Hex,
    /// The moment is not a decimal number up to 2^53.
    Number,
    /// The moment is below that of an earlier line.
    ClockBack,
}

/// Why bytes are no script.
#[derive(Clone, Copy, Debug, PartialEq, Eq, Error)]
pub enum ScriptFault {
    /// The first line with a broken rule, counted from 1, and its first broken rule.
    #[error("a line is refused")]
    Refused { line: u32, kind: ScriptKind },
    #[error("out of memory")]
    OutOfMemory,
}

/// Why a line was not read.
#[derive(Clone, Copy, Debug, PartialEq, Eq)]
pub enum LineFault {
    Broken(ScriptKind),
    OutOfMemory,
}

impl LineFault {
    ghost use Rattle.std.specs.Prelude.{◌≡◌};
    ghost use Rattle.script_lang.specs.Faults.{fault_at};

    /// The fault at the line of this number.
    pub fn at(self, line: u32) -> ScriptFault
        ensures { result ≡ fault_at line self }
    {
        match self {
            LineFault::Broken(kind) => ScriptFault::Refused { line, kind },
            LineFault::OutOfMemory => ScriptFault::OutOfMemory,
        }
    }
}

impl From<AllocError> for LineFault {
    ghost use Rattle.std.specs.Prelude.{◌≡◌};
    ghost use Rattle.script_lang.specs.declared.fault.LineFault.TheVariants.{OutOfMemory};

    ghost from_gives = { λ _ e. e ≡ OutOfMemory };

    fn from(_: AllocError) -> LineFault {
        LineFault::OutOfMemory
    }
}

impl<T: Drop> From<AllocFailed<T>> for LineFault {
    ghost use Rattle.std.specs.Prelude.{◌≡◌};
    ghost use Rattle.script_lang.specs.declared.fault.LineFault.TheVariants.{OutOfMemory};

    ghost from_gives = { λ _ e. e ≡ OutOfMemory };

    fn from(_: AllocFailed<T>) -> LineFault {
        LineFault::OutOfMemory
    }
}
