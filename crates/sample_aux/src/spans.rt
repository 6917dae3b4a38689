// Boxes of the file, by their spans.
ghost use Rattle.std.specs.Prelude.{◌≡◌, ◌+◌, ◌<◌, ◌^◌, length};
ghost use Rattle.iso_boxes.specs.Walk.{found};
ghost use Rattle.sample_aux.specs.Spans.{part_of, box_at};

use frag_boxes::Span;
use iso_boxes::BoxRef;

/// So many bytes of the file, from a place on, as far as they are there.
pub fn part_of(file: &[u8], place: u64, len: u64) -> &[u8]
    ensures { result.now ≡ part_of file.now place len }
{
    let from = place.min(file.len() as u64) as usize;
    let rest = &file[from..];
    let count = len.min(rest.len() as u64) as usize;
    &rest[..count]
}

/// The box of a span.
pub fn box_at<'a>(file: &'a [u8], span: &Span) -> BoxRef<'a>
    ensures box_ { found result ≡ box_at file.now span.now }
    ensures fits { result.body_place + length result.body.now < 2 ^ 64 }
{
    BoxRef {
        kind: [0; 4],
        place: span.place,
        body: part_of(file, span.body_place, span.len),
        body_place: span.body_place,
    }
}
