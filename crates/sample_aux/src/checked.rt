// The protection of a movie's sample entries, and its group descriptions.
ghost use Rattle.std.specs.Prelude.{◌≡◌};
ghost use Rattle.sample_aux.specs.Faults.{Gives};
ghost use Rattle.sample_aux.specs.Checked.{passed_over, known_sinf, entry_protection, told_groups, groups_in};

use crate::fault::{AuxFault, AuxKind};
use crate::first::{BoxReader, first_given};
use eme_types::Items;
use frag_boxes::{SampleEntry, Span};
use iso_boxes::BoxRef;
use prot_boxes::{ProtFault, ProtKind, Seigs, Sgpd, Sinf, read_sgpd, read_sinf};
use std::alloc::Global;

fn passed_over(fault: ProtFault) -> Result<Option<Sinf>, AuxFault>
    ensures { result ≡ passed_over fault fault.kind }
{
    match fault.kind {
        ProtKind::Scheme => Ok(None),
        _ => Err(AuxFault::from(fault)),
    }
}

#[derive(Clone, Copy)]
struct SinfReader;

impl BoxReader for SinfReader {
    type Given = Sinf;

    ghost gives = { λ r b. known_sinf b };

    #[tactic(auto, unfolding(crate::specs::Checked::known_sinf))]
    fn read(&self, _alloc: Global, at: &BoxRef<'_>) -> Result<Option<Sinf>, AuxFault> {
        match read_sinf(at) {
            Ok(sinf) => Ok(Some(sinf)),
            Err(fault) => passed_over(fault),
        }
    }
}

/// What protects the samples of a sample entry; none where it is clear.
#[tactic(auto, unfolding(crate::specs::Checked::entry_protection))]
pub fn entry_protection(
    alloc: Global,
    file: &[u8],
    entry: &SampleEntry,
) -> Result<Option<Sinf>, AuxFault>
    ensures { Gives (λ x. x) result (entry_protection file.now entry.now) }
{
    let used = first_given(alloc, file, entry.sinfs.as_slice(), &SinfReader)?;
    match (entry.sinfs.as_slice().first(), used) {
        (None, _) => Ok(None),
        (Some(first), None) => Err(AuxFault {
            place: first.place,
            kind: AuxKind::Scheme,
        }),
        (Some(_), Some(sinf)) => Ok(Some(sinf)),
    }
}

#[derive(Clone, Copy)]
struct SgpdReader;

impl BoxReader for SgpdReader {
    type Given = Sgpd;

    ghost gives = { λ r b. told_groups b };

    #[tactic(auto, unfolding(crate::specs::Checked::told_groups))]
    fn read(&self, alloc: Global, at: &BoxRef<'_>) -> Result<Option<Sgpd>, AuxFault> {
        let groups = read_sgpd(alloc, at)?;
        Ok(groups)
    }
}

/// The groups that the first of these boxes of type `seig` describes.
#[tactic(auto, unfolding(crate::specs::Checked::groups_in))]
pub fn groups_in(alloc: Global, file: &[u8], spans: &[Span]) -> Result<Seigs, AuxFault>
    ensures { Gives (λ x. x) result (groups_in file.now spans.now) }
{
    match first_given(alloc, file, spans, &SgpdReader)? {
        Some(groups) => Ok(groups.entries),
        None => Ok(Items::new(alloc)),
    }
}
