// What the top call answers.
use eme_edge::UsageFault;
use license_desk::DeskKind;
use script_lang::ScriptKind;
use track_media::MediaKind;

/// Which of the files that a command reads.
#[derive(Clone, Copy, Debug, PartialEq, Eq)]
pub enum Which {
    /// The script, which `play` reads first.
    Script,
    /// The media file.
    Media,
    /// The table of keys of a desk, which it reads first.
    Desk,
    /// The licence request that a desk answers.
    Request,
}

/// Why media are not sealed.
#[derive(Clone, Copy, Debug, PartialEq, Eq)]
pub enum SealKind {
    /// A fragment has initialization data.
    HasInit,
    /// A sample is protected.
    Protected,
    /// The file would have more than 67,108,864 bytes.
    TooLarge,
}

/// What the top call answers.
#[derive(Clone, Copy, Debug, PartialEq, Eq)]
pub enum Outcome {
    /// The files were played, and the texts are written.
    Played,
    /// Another command said all of its text.
    Done,
    /// The words are outside their grammar; nothing was read, written or said.
    Usage(UsageFault),
    /// The first line with a broken rule, counted from 1, and its first broken rule; nothing was written or said.
    ScriptRefused { line: u32, kind: ScriptKind },
    /// The first byte of what breaks the first broken rule, counted from 0; nothing was written or said.
    MediaRefused { place: u64, kind: MediaKind },
    /// The first line of a table of keys with a broken rule, counted from 1, and its first broken rule; nothing was said.
    DeskRefused { line: u32, kind: DeskKind },
    /// The media are read, and may not be sealed; nothing was written or said.
    SealRefused(SealKind),
    /// The file has more bytes than the limit; nothing was written or said.
    TooLarge { which: Which, limit: u64 },
    /// A read failed, or a file that the command has to read is not there; nothing was written or said.
    ReadFault,
    /// Writing or saying failed; what came before is written, and of the text at hand a front may be.
    WriteFault,
    /// Memory was wanting; where that was while a text was written or said, what came before it is there.
    OutOfMemory,
}
