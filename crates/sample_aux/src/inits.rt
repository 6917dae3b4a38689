// Initialization data.
ghost use Rattle.std.specs.Prelude.{◌≡◌, ◌++◌, ◌≤◌, length, IfOk, OnOk};
ghost use Rattle.std.specs.List.{flat_map, sum_by};
ghost use Rattle.frag_boxes.specs.Extents.{span_bytes};
ghost use Rattle.sample_aux.specs.Bounds.{init_bytes};
ghost use Rattle.sample_aux.specs.Spans.{box_bytes};
ghost use Rattle.sample_aux.specs.Inits.{inits_of};

use crate::spans::part_of;
use eme_types::{Bytes, InitData, InitKind, Inits, Items};
use frag_boxes::Span;
use std::alloc::{AllocError, Global};

/// Adds the whole box of a span.
fn put_box_bytes(bytes: &mut Bytes, file: &[u8], span: &Span) -> Result<(), AllocError>
    ensures { OnOk result (bytes.new ≡ bytes.old ++ box_bytes file.now span.now) }
{
    let header = span.body_place.saturating_sub(span.place);
    bytes.extend_from_slice(part_of(file, span.place, header))?;
    bytes.extend_from_slice(part_of(file, span.body_place, span.len))
}

fn pssh_bytes(alloc: Global, file: &[u8], spans: &[Span]) -> Result<Bytes, AllocError>
    ensures { IfOk result (λ x. x ≡ flat_map (λ s. box_bytes file.now s) spans.now) }
{
    let mut bytes = Bytes::new(alloc);
    for span in spans {
        put_box_bytes(&mut bytes, file, span)?;
    }
    Ok(bytes)
}

/// What `init_data_of` makes, by its definition alone.
fn init_of(alloc: Global, file: &[u8], psshs: &[Span]) -> Result<Inits, AllocError>
    ensures { IfOk result (λ x. x ≡ inits_of file.now psshs.now) }
{
    let mut inits = Items::new(alloc);
    if !psshs.is_empty() {
        let bytes = pssh_bytes(alloc, file, psshs)?;
        inits.push(InitData {
            kind: InitKind::Cenc,
            bytes,
        })?;
    }
    Ok(inits)
}

/// The initialization data of the `pssh` boxes of a `moov` or a `moof` that stands in `file`: one of the type `cenc`, the whole
/// boxes one behind the other (ISO/IEC 23001-7 section 8.1; Encrypted Media Extensions Initialization Data Format Registry,
/// "cenc"), or none where there is no box.
pub fn init_data_of(alloc: Global, file: &[u8], psshs: &[Span]) -> Result<Inits, AllocError>
    ensures exact { IfOk result (λ x. x ≡ inits_of file.now psshs.now) }
    ensures few { IfOk result (λ x. length x ≤ 1) }

    // no more than the boxes have
    ensures bytes { IfOk result (λ x. sum_by init_bytes x ≤ sum_by span_bytes psshs.now) }
{
    init_of(alloc, file, psshs)
}
