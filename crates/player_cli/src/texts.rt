// The files that a play writes.
ghost use Rattle.std.specs.Prelude.{◌≡◌, string_bytes, IsTrue, IfOk};
ghost use Rattle.eme_types.specs.Fed.{are_distinct};
ghost use Rattle.output_order.specs.Summary.{summary_of};
ghost use Rattle.player_cli.specs.Files.{files_of, HaveDistinctNames};

use cdm_state::Cdm;
use eme_types::Bytes;
use output_order::{log_text, summary_text, track_bytes};
use std::alloc::{AllocError, Global};
use std::marker::Model;

/// A file by its name, and its text.
#[derive(Drop)]
pub struct TextFile {
    name: String,
    text: Bytes,
}

impl Model for TextFile {
    ghost use Rattle.std.specs.Prelude.{string_bytes};
    ghost use Rattle.player_cli.specs.FileText.{FileText};

    ghost Value = { FileText };

    ghost view = { λ f. let x : FileText = record { name = string_bytes f.name; text = f.text } in x };
}

impl TextFile {
    pub fn new(name: String, text: Bytes) -> TextFile
        ensures { result ≡ record { name = string_bytes name; text = text } }
    {
        TextFile { name, text }
    }

    pub fn name(&self) -> &str
        ensures { result.now ≡ self.now.name }
    {
        self.name.as_str()
    }

    pub fn text(&self) -> &[u8]
        ensures { result.now ≡ self.now.text }
    {
        self.text.as_slice()
    }
}

/// The log, and then a file for each track.
fn files_of(alloc: Global, cdm: &Cdm, prefix: &str) -> Result<Vec<TextFile>, AllocError>
    requires { IsTrue (are_distinct cdm.now.tracks) }
    ensures files { IfOk result (λ files. files.items ≡ files_of prefix.now cdm.now.tracks cdm.now.history) }
    ensures names { IfOk result (λ files. HaveDistinctNames files.items) }
{
    let mut files = Vec::new(alloc);
    let name = format!(in alloc; "{prefix}.log")?;
    files.push(TextFile::new(name, log_text(alloc, cdm)?))?;
    let ids = cdm.tracks().as_slice();
    for id in ids {
        let name = format!(in alloc; "{prefix}.{id}")?;
        files.push(TextFile::new(name, track_bytes(alloc, cdm, *id)?))?;
    }
    Ok(files)
}

/// What a play writes and says.
#[derive(Drop)]
pub struct PlayTexts {
    pub files: Vec<TextFile>,
    pub summary: Bytes,
}

/// The files of a play, and its summary.
pub fn texts_of(alloc: Global, cdm: &Cdm, prefix: &str) -> Result<PlayTexts, AllocError>
    requires { IsTrue (are_distinct cdm.now.tracks) }
    ensures files { IfOk result (λ texts. texts.files.items ≡ files_of prefix.now cdm.now.tracks cdm.now.history) }
    ensures names { IfOk result (λ texts. HaveDistinctNames texts.files.items) }
    ensures summary { IfOk result (λ texts. texts.summary ≡ summary_of cdm.now.tracks cdm.now.history) }
{
    let files = files_of(alloc, cdm, prefix)?;
    let summary = summary_text(alloc, cdm)?;
    Ok(PlayTexts { files, summary })
}
